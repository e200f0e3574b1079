//! Surveys that are refused memory, and how many messages they keep. Logs are spelled in the words of `notation.rt`: `S` sent, `R` received and `M` a
//! mark, each with its moment; then a method, a branch without the cookie, and the code where it is a response.
use crate::notation::log_of;
use crate::streams::answered;
use crate::wants::{holds, reads};
use sip_log::{Entry, FromRead, LogError, Progress, ToWrite};
use sip_verdict::{Finding, Part, StepError, Survey, SurveyEnd, survey_part};
use std::alloc::Global;
use std::hash::{BuildHasherDefault, FoldHasher};
use std::process::Abort;
use std::test::Fail;

// The hasher of keys, by which no survey differs.
pub(crate) type Hasher = BuildHasherDefault<FoldHasher>;

/// Checks the lines of the survey of part `number` of two.
fn surveys_part(
    rt: &(impl Abort + AllocGlobal),
    log: &str,
    number: u32,
    want: &str,
) -> Result<(), Fail> {
    let part = Part::new(number, 2).ok_or("a part")?;
    // The writer has room for the lines, so that a growth is never refused to it.
    let mut text = Vec::with_capacity(rt.alloc(), 1_024)?;
    let mut source = FromRead::new(log.as_bytes());
    let mut writer = ToWrite::new(&mut text);
    survey_part(rt.alloc(), &mut source, &mut writer, Hasher::new(), &part)?;
    drop(writer);
    let lines = str::from_utf8(text.as_slice()).map_err(|_| "no text")?;
    reads(rt, lines, want, "a part");
    Ok(())
}

/// `tests/growths` refuses each growth in turn while a part is surveyed: the message of the other part stands in front of the one that is
/// taken, which is that of b (part 1). Both clients have to send again by 550.
#[test]
fn refused_while_a_part_is_surveyed(rt: HostRuntime) -> Result<(), Fail> {
    let log = log_of(rt.alloc(), "S 0 OPTIONS a; S 0 OPTIONS b; M 600")?;
    let breach =
        "breach 3 transaction 1 client OPTIONS z9hG4bKb 2 2\nend entries 3 transactions 1 findings 1\n";
    surveys_part(&rt, log.as_str(), 1, breach)
}

/// The reader of a log's entries, and the survey that takes them.
pub(crate) struct Surveyed<'a> {
    bytes: &'a [u8],
    progress: Progress,
    pub(crate) survey: Survey<Hasher>,
}

impl<'a> Surveyed<'a> {
    /// Reads the header of the log.
    pub(crate) fn open(alloc: Global, mut bytes: &'a [u8]) -> Result<Surveyed<'a>, LogError> {
        let (params, progress) = Progress::open(alloc, &mut bytes)?;
        Ok(Surveyed {
            bytes,
            progress,
            survey: Survey::new(alloc, params, Hasher::new()),
        })
    }

    /// Reads the next entry.
    pub(crate) fn next(&mut self) -> Result<Option<Entry>, LogError> {
        self.progress.next(&mut self.bytes)
    }

    /// How the log ends after the entries that were taken.
    pub(crate) fn end(self) -> Option<SurveyEnd> {
        let Surveyed {
            bytes: _bytes,
            progress: _progress,
            survey,
        } = self;
        survey.end()
    }
}

/// Gives the entry to the survey, and checks that it may come next.
pub(crate) fn take(
    rt: &impl Abort,
    survey: &mut Survey<Hasher>,
    entry: &Entry,
    found: &mut Vec<Finding>,
) -> Result<(), StepError> {
    assert!(rt; survey.may_take(entry));
    survey.entry(entry, found)
}

/// Takes an entry, and checks that a survey that fails at it wants memory, and says from then on that it failed.
fn takes_or_fails(
    rt: &impl Abort,
    survey: &mut Survey<Hasher>,
    entry: &Entry,
    found: &mut Vec<Finding>,
) -> Result<(), StepError> {
    let Err(error) = take(rt, survey, entry, found) else {
        return Ok(());
    };
    holds(rt, error == StepError::Memory, "want of memory");
    let count = found.len();
    let answer = take(rt, survey, entry, found);
    holds(
        rt,
        answer == Err(StepError::Failed),
        "of a survey that failed",
    );
    holds(rt, found.len() == count, "nothing is found after an error");
    Err(error)
}

/// Takes all entries of a log, or as many as there are until the survey fails, and answers its error.
fn takes_all(
    rt: &impl Abort,
    surveyed: &mut Surveyed<'_>,
    found: &mut Vec<Finding>,
) -> Result<Option<StepError>, Fail> {
    // No log of these tests has as many as 200 entries.
    for _ in 0..200 {
        let Some(entry) = surveyed.next()? else {
            break;
        };
        if let Err(error) = takes_or_fails(rt, &mut surveyed.survey, &entry, found) {
            return Ok(Some(error));
        }
    }
    Ok(None)
}

/// A survey needs a request until its response has come, and keeps no response. The first sweep comes after the 65th request, which is entry
/// 129, and drops all but that request. Three requests come after it, and are kept.
#[test]
fn a_survey_keeps_few_messages_of_many(rt: HostRuntime) -> Result<(), Fail> {
    let log = answered(rt.alloc(), 68)?;
    let mut surveyed = Surveyed::open(rt.alloc(), log.as_str().as_bytes())?;
    let mut found = Vec::new(rt.alloc());
    let failed = takes_all(&rt, &mut surveyed, &mut found);
    let kept = surveyed.survey.kept();
    surveyed.end();
    holds(
        &rt,
        failed?.is_none() && found.is_empty(),
        "nothing is found",
    );
    holds(&rt, kept == 4, "kept at the end");
    Ok(())
}

/// `tests/growths` refuses each growth in turn. A survey that failed has no end, and one that did not fail has found three things.
#[test]
fn refused_while_a_survey_goes_on(rt: HostRuntime) -> Result<(), Fail> {
    let words = "S 0 OPTIONS a; S 0 OPTIONS b; S 600 OPTIONS d s/z9hG4bK//; M 700; S 800 OPTIONS c";
    let log = log_of(rt.alloc(), words)?;
    let mut surveyed = Surveyed::open(rt.alloc(), log.as_str().as_bytes())?;
    let mut found = Vec::new(rt.alloc());
    let failed = takes_all(&rt, &mut surveyed, &mut found);
    let end = surveyed.end();
    let Some(error) = failed? else {
        holds(&rt, found.len() == 3, "found");
        let clean = SurveyEnd::Clean {
            entries: 5,
            transactions: 3,
        };
        holds(&rt, end == Some(clean), "at the end");
        return Ok(());
    };
    holds(&rt, end.is_none(), "of a survey that failed");
    Err(error.into())
}
