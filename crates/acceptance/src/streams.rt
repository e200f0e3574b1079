//! Judges that take entries one after another, and how many messages they keep. Logs are spelled in the words of `notation.rt`: `S` sent, `R` received,
//! `M` a mark and `Z` a restart, each with its moments; then a method, a branch without the cookie, and the code where it is a response.
ghost use Rattle.std.specs.Prelude.{◌≤◌};

mod rows;

use crate::logs::push_own;
use crate::notation::{header, log_of};
use crate::wants::{holds, holds_at};
use sip_log::{Entry, LogError, Progress};
use sip_verdict::{Judge, StepError, Verdict, render};
use std::alloc::Global;
use std::fmt::Write;
use std::hash::{BuildHasherDefault, FoldHasher};
use std::process::Abort;
use std::test::Fail;

// The hasher of keys, by which no verdict differs.
type Hasher = BuildHasherDefault<FoldHasher>;

/// The reader of a log's entries, and the judge that takes them.
struct Stream<'a> {
    bytes: &'a [u8],
    progress: Progress,
    judge: Judge<Hasher>,
}

impl<'a> Stream<'a> {
    /// Reads the header of the log.
    fn open(alloc: Global, mut bytes: &'a [u8]) -> Result<Stream<'a>, LogError> {
        let (params, progress) = Progress::open(alloc, &mut bytes)?;
        Ok(Stream {
            bytes,
            progress,
            judge: Judge::new(alloc, params, Hasher::new()),
        })
    }

    /// The verdict after the entries that were taken. The function ends a stream where others would drop it, so that no proof is needed of all that a
    /// judge keeps.
    fn end(self) -> Option<Verdict> {
        let Stream {
            bytes: _bytes,
            progress: _progress,
            judge,
        } = self;
        judge.end()
    }

    /// Reads the next entry.
    fn next(&mut self) -> Result<Option<Entry>, LogError> {
        self.progress.next(&mut self.bytes)
    }
}

/// Gives the entry to the judge, and checks that it may come next.
fn take(
    rt: &impl Abort,
    judge: &mut Judge<Hasher>,
    entry: &Entry,
) -> Result<Option<Verdict>, StepError> {
    assert!(rt; judge.may_take(entry));
    judge.entry(entry)
}

/// Takes the next entry. It answers whether there was one, and no verdict yet.
fn goes_on(rt: &impl Abort, stream: &mut Stream<'_>) -> Result<bool, Fail> {
    let Some(entry) = stream.next()? else {
        return Ok(false);
    };
    Ok(take(rt, &mut stream.judge, &entry)?.is_none())
}

/// Takes entries until there is a verdict, and appends how many messages are kept after each.
fn count_kept(rt: &impl Abort, stream: &mut Stream<'_>, kept: &mut Vec<usize>) -> Result<(), Fail> {
    // A log has at most 1,000,000 entries.
    for _ in 0..=1_000_000 {
        if !goes_on(rt, stream)? {
            break;
        }
        kept.push(stream.judge.kept())?;
    }
    Ok(())
}

/// How many messages the judge keeps after each entry, and its last verdict.
fn kept_after_each(
    rt: &(impl Abort + AllocGlobal),
    log: &str,
) -> Result<(Vec<usize>, Option<Verdict>), Fail> {
    let mut stream = Stream::open(rt.alloc(), log.as_bytes())?;
    let mut kept = Vec::new(rt.alloc());
    let counted = count_kept(rt, &mut stream, &mut kept);
    let verdict = stream.end();
    counted?;
    Ok((kept, verdict))
}

/// The text of the verdict of a judge that takes the entries of a log which is read whole.
pub(crate) fn verdict_by_entries(
    rt: &(impl Abort + AllocGlobal),
    log: &str,
) -> Result<String, Fail> {
    let (_, verdict) = kept_after_each(rt, log)?;
    let verdict = verdict.ok_or("no verdict")?;
    Ok(render(rt.alloc(), &verdict)?)
}

/// The log of this many OPTIONS, each with a branch of its own: one every ten seconds, each answered ten milliseconds later.
pub(crate) fn answered(alloc: Global, count: u64) -> Result<String, Fail>
    requires { count ≤ 1000 }
{
    let mut log = header(alloc, "tolerance 50")?;
    for before in 0..count {
        let branch = before + 1;
        let sent = before * 10_000;
        push_own(alloc, &mut log, ("S", "OPTIONS", None), sent, branch)?;
        push_own(
            alloc,
            &mut log,
            ("R", "OPTIONS", Some("200")),
            sent + 10,
            branch,
        )?;
    }
    Ok(log)
}

/// Checks what a judge says, for this row.
fn says(rt: &impl Abort, verdict: Option<Verdict>, want: Option<Verdict>, row: &str) {
    holds(rt, verdict == want, row);
}

/// A legal log of this many entries and transactions.
fn legal(entries: u64, transactions: u64) -> Option<Verdict> {
    Some(Verdict::Legal {
        entries,
        transactions,
    })
}

/// Takes the entries of a log with 1,000 transactions of two entries each, and checks how many messages are kept after the entries at these places,
/// which count from 0 (128 is entry 129), and that no more than 66 are kept after any.
fn keeps_few(
    rt: &(impl Abort + AllocGlobal),
    log: &str,
    places: &[(usize, usize)],
) -> Result<(), Fail> {
    let (kept, verdict) = kept_after_each(rt, log)?;
    says(rt, verdict, legal(2_000, 1_000), "at the end");
    holds(rt, kept.len() == 2_000, "the entries");
    for &(place, want) in places {
        holds_at(rt, kept.get(place) == Some(&want), ("kept at", place));
    }
    for (place, count) in kept.iter().enumerate() {
        holds_at(rt, *count <= 66, ("kept at", place));
    }
    Ok(())
}

/// A judge needs a request until its response has come, and keeps no response. The first sweep comes after the 65th request, which is entry
/// 129. Each sweep drops all but the newest request.
#[test]
fn keeps_few_messages_of_many(rt: HostRuntime) -> Result<(), Fail> {
    let log = answered(rt.alloc(), 1_000)?;
    // A sweep comes where more than 64 and twice what the last one left are kept: with the 65th message, and later, after one was left, with the 67th.
    let places = [(127, 64), (128, 1), (259, 66), (260, 1)];
    keeps_few(&rt, log.as_str(), &places)
}

/// The log of this many OPTIONS, each with a branch of its own: one every ten milliseconds, and a restart of the element after each.
fn restarted(alloc: Global, count: u64) -> Result<String, Fail>
    requires { count ≤ 1000 }
{
    let mut log = header(alloc, "early 50 late 50")?;
    for branch in 0..count {
        let sent = branch * 10;
        push_own(alloc, &mut log, ("S", "OPTIONS", None), sent, branch)?;
        let restart = sent + 5;
        write!(log, "Z {restart}\n")?;
    }
    Ok(log)
}

/// A judge needs no request after a restart. The first sweep comes after the 65th request, which is entry 129. Each sweep drops all but the
/// newest request.
#[test]
fn forgets_after_restarts(rt: HostRuntime) -> Result<(), Fail> {
    let log = restarted(rt.alloc(), 1_000)?;
    // As above: the first sweep comes with the 65th message that is kept, and the next ones with the 67th.
    let places = [(127, 64), (128, 1), (259, 66), (260, 1)];
    keeps_few(&rt, log.as_str(), &places)
}

/// The log of 64 OPTIONS that a server answers at once, and of a client's request 100 seconds later.
fn ended(alloc: Global) -> Result<String, Fail> {
    let mut log = header(alloc, "tolerance 50")?;
    for branch in 0..64 {
        push_own(alloc, &mut log, ("R", "OPTIONS", None), 0, branch)?;
        push_own(alloc, &mut log, ("S", "OPTIONS", Some("200")), 0, branch)?;
    }
    push_own(alloc, &mut log, ("S", "OPTIONS", None), 100_000, 64)?;
    Ok(log)
}

/// A server needs its response, and not the request, until it ends 32 seconds after the response. The last request is the 65th message that
/// is kept, so a sweep comes after it, and drops all but that request.
#[test]
fn forgets_what_ended_servers_sent(rt: HostRuntime) -> Result<(), Fail> {
    let log = ended(rt.alloc())?;
    let (kept, verdict) = kept_after_each(&rt, log.as_str())?;
    says(&rt, verdict, legal(129, 65), "at the end");
    holds(&rt, kept.last() == Some(&1), "kept at the end");
    Ok(())
}

/// The log of 200 INVITEs at moment 0, each with a branch of its own.
fn waiting(alloc: Global) -> Result<String, Fail> {
    let mut log = header(alloc, "tolerance 50")?;
    for branch in 0..200 {
        push_own(alloc, &mut log, ("S", "INVITE", None), 0, branch)?;
    }
    Ok(log)
}

/// Checks that after each entry its message is kept, and all messages before it.
fn keeps_all(rt: &impl Abort, kept: &[usize]) {
    for (before, count) in kept.iter().enumerate() {
        let is_one_more = before < *count && *count - before == 1;
        holds_at(rt, is_one_more, ("kept after", before));
    }
}

/// Each request at moment 0 waits for its response, so that no sweep drops one.
#[test]
fn keeps_what_is_needed(rt: HostRuntime) -> Result<(), Fail> {
    let log = waiting(rt.alloc())?;
    let (kept, verdict) = kept_after_each(&rt, log.as_str())?;
    says(&rt, verdict, legal(200, 200), "at the end");
    keeps_all(&rt, kept.as_slice());
    Ok(())
}

/// A message without the cookie concerns no transaction and is not kept, neither as the first entry nor after an entry that is kept. Nor is the
/// last response kept, which no state names.
#[test]
fn keeps_no_message_without_a_key(rt: HostRuntime) -> Result<(), Fail> {
    let log = log_of(
        rt.alloc(),
        "R 0 OPTIONS abc s/z9hG4bK//; S 0 OPTIONS 1; R 0 OPTIONS abc s/z9hG4bK//; R 10 OPTIONS abc 200 s/z9hG4bK//; \
         S 20 OPTIONS abc 200 s/z9hG4bK//; M 30; R 30 OPTIONS 1 200",
    )?;
    let (kept, verdict) = kept_after_each(&rt, log.as_str())?;
    says(&rt, verdict, legal(7, 1), "at the end");
    holds(
        &rt,
        kept.as_slice() == [0, 1, 1, 1, 1, 1, 1].as_slice(),
        "kept",
    );
    Ok(())
}

/// Takes the entries, and checks what the judge says of each.
fn says_of_each(
    rt: &impl Abort,
    stream: &mut Stream<'_>,
    wants: &[Option<Verdict>],
) -> Result<(), Fail> {
    for &want in wants {
        let entry = stream.next()?.ok_or("no entry")?;
        says(
            rt,
            take(rt, &mut stream.judge, &entry)?,
            want,
            "of an entry",
        );
    }
    Ok(())
}

/// A repeat that comes too early is told at once, and told again of whatever comes after it.
#[test]
fn tells_a_verdict_again(rt: HostRuntime) -> Result<(), Fail> {
    let log = log_of(rt.alloc(), "S 0 OPTIONS 1; S 100 OPTIONS 1; M 200; M 300")?;
    let mut stream = Stream::open(rt.alloc(), log.as_str().as_bytes())?;
    let breach = Some(Verdict::Breach {
        entry: 2,
        transaction: 1,
    });
    let said = says_of_each(&rt, &mut stream, &[None, breach, breach, breach]);
    let verdict = stream.end();
    said?;
    says(&rt, verdict, breach, "at the end");
    Ok(())
}

/// Takes the entries until there is a verdict, and appends what is due after each.
fn note_due(
    rt: &impl Abort,
    stream: &mut Stream<'_>,
    due: &mut Vec<Option<u64>>,
) -> Result<(), Fail> {
    for _ in 0..=1_000_000 {
        let has_no_verdict = goes_on(rt, stream)?;
        due.push(stream.judge.next_due())?;
        if !has_no_verdict {
            break;
        }
    }
    Ok(())
}

/// What is due after each entry of a log that ends with a breach.
fn due_after_each(rt: &(impl Abort + AllocGlobal), log: &str) -> Result<Vec<Option<u64>>, Fail> {
    let mut stream = Stream::open(rt.alloc(), log.as_bytes())?;
    let mut due = Vec::new(rt.alloc());
    let noted = note_due(rt, &mut stream, &mut due);
    stream.end();
    noted?;
    Ok(due)
}

/// A request is to be sent again by 550 ms after its moment, until its response has come. The earliest of these moments is due, and after
/// a verdict none.
#[test]
fn tells_what_is_due(rt: HostRuntime) -> Result<(), Fail> {
    let log = log_of(
        rt.alloc(),
        "S 0 OPTIONS 1; S 100 OPTIONS 2; R 150 OPTIONS 1 200; R 160 OPTIONS 2 200; S 200 OPTIONS 3; S 300 OPTIONS 3",
    )?;
    let due = due_after_each(&rt, log.as_str())?;
    let wants = [Some(550), Some(550), Some(650), None, Some(750), None];
    holds(&rt, due.as_slice() == wants.as_slice(), "due");
    Ok(())
}

/// Whether the key of the transaction has this branch; or, where no branch is wanted, whether there is no such transaction.
fn has_branch(judge: &Judge<Hasher>, transaction: u64, want: Option<&[u8]>) -> bool {
    match judge.key(transaction) {
        Some(key) => Some(key.branch()) == want,
        None => want.is_none(),
    }
}

/// Checks that the judge names each transaction by its key, and no other one.
fn names(rt: &impl Abort, judge: &Judge<Hasher>) {
    holds(rt, has_branch(judge, 0, None), "no transaction");
    holds(rt, has_branch(judge, 1, Some(b"z9hg4bka")), "the first");
    holds(rt, has_branch(judge, 2, Some(b"z9hg4bkb")), "the second");
    holds(rt, has_branch(judge, 3, Some(b"z9hg4bkc")), "the last");
    holds(rt, has_branch(judge, 4, None), "one more");
}

/// Transactions are numbered from 1 on, in the order of their first entries. A key has its branch in small letters.
#[test]
fn names_transactions_by_their_keys(rt: HostRuntime) -> Result<(), Fail> {
    let log = log_of(
        rt.alloc(),
        "S 0 OPTIONS a; R 0 OPTIONS b; S 10 OPTIONS c; S 10 OPTIONS b 200",
    )?;
    let mut stream = Stream::open(rt.alloc(), log.as_str().as_bytes())?;
    let said = says_of_each(&rt, &mut stream, &[None, None, None, None]);
    names(&rt, &stream.judge);
    stream.end();
    said
}

/// The stream's first entry is at moment 5. Checks that its own second one may come next, and that of another log, at 4, may not.
fn takes_none_from_before(
    rt: &impl Abort,
    stream: &mut Stream<'_>,
    other: &mut Stream<'_>,
) -> Result<(), Fail> {
    says_of_each(rt, stream, &[None])?;
    says_of_each(rt, other, &[None])?;
    let early = other.next()?.ok_or("no entry")?;
    let next = stream.next()?.ok_or("no entry")?;
    holds(rt, !stream.judge.may_take(&early), "at 4");
    holds(rt, stream.judge.may_take(&next), "at 5");
    holds(rt, other.judge.may_take(&early), "at 4 after 3");
    Ok(())
}

/// Checks that the second entry of the log of these words may not come next in the stream.
fn takes_none_of(
    rt: &(impl Abort + AllocGlobal),
    stream: &mut Stream<'_>,
    words: &str,
) -> Result<(), Fail> {
    let log = log_of(rt.alloc(), words)?;
    let mut other = Stream::open(rt.alloc(), log.as_str().as_bytes())?;
    let taken = takes_none_from_before(rt, stream, &mut other);
    other.end();
    taken
}

/// A stream refuses an entry with a moment before that of the last one.
#[test]
fn takes_no_entry_from_before(rt: HostRuntime) -> Result<(), Fail> {
    let log = log_of(rt.alloc(), "M 5,5")?;
    let mut stream = Stream::open(rt.alloc(), log.as_str().as_bytes())?;
    let taken = takes_none_of(&rt, &mut stream, "M 3,4");
    stream.end();
    taken
}

/// Takes an entry, and checks that a judge that fails at it wants memory, and says from then on that it failed.
fn takes_or_fails(
    rt: &impl Abort,
    judge: &mut Judge<Hasher>,
    entry: &Entry,
) -> Result<(), StepError> {
    let Err(error) = take(rt, judge, entry) else {
        // An entry that was taken may not come again.
        holds(rt, !judge.may_take(entry), "an entry that was taken");
        return Ok(());
    };
    holds(rt, error == StepError::Memory, "want of memory");
    for _ in 0..2 {
        let answer = take(rt, judge, entry);
        holds(
            rt,
            answer == Err(StepError::Failed),
            "of a judge that failed",
        );
    }
    Err(error)
}

/// Takes this many entries, or as many as there are, until the judge fails, and answers its error. A judge that has failed may be given any entry,
/// also one that it took before.
fn takes_until_it_fails(
    rt: &impl Abort,
    stream: &mut Stream<'_>,
    count: usize,
) -> Result<Option<StepError>, Fail> {
    let mut before = None;
    for _ in 0..count {
        let Some(entry) = stream.next()? else {
            break;
        };
        if let Err(error) = takes_or_fails(rt, &mut stream.judge, &entry) {
            let any = before.as_ref().unwrap_or(&entry);
            holds(rt, stream.judge.may_take(any), "an entry that was taken");
            return Ok(Some(error));
        }
        before = Some(entry);
    }
    Ok(None)
}

/// `tests/growths` refuses each growth in turn, those of a sweep too. A judge that failed has no verdict, and one that did not fail keeps two
/// messages.
#[test]
fn refused_while_a_judge_sweeps(rt: HostRuntime) -> Result<(), Fail> {
    // These are 132 entries, of which the 129th brings the first sweep.
    let log = answered(rt.alloc(), 66)?;
    let mut stream = Stream::open(rt.alloc(), log.as_str().as_bytes())?;
    let failed = takes_until_it_fails(&rt, &mut stream, 132);
    let kept = stream.judge.kept();
    let verdict = stream.end();
    let Some(error) = failed? else {
        // The sweep with the 65th request left that one, and the 66th came after it.
        holds(&rt, kept == 2, "kept at the end");
        return Ok(());
    };
    says(&rt, verdict, None, "of a judge that failed");
    Err(error.into())
}
