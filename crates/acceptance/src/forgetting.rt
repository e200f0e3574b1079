//! Surveys that forget transactions that are over. Logs are spelled in the words of `notation.rt`: `S` sent, `R` received, `M` a mark and `Z` a restart,
//! each with its moments; then a method, a branch without the cookie, and the code where it is a response.
use crate::notation::log_of;
use crate::surveys::{Hasher, Surveyed, take};
use crate::wants::{holds, reads};
use sip_verdict::{Finding, StepError, Survey, SurveyEnd};
use std::alloc::{AllocError, Global};
use std::process::Abort;
use std::test::Fail;

/// The words of a log; how many of the newest entries keep the transactions that they concern; how many transactions are left after each
/// entry; and the entry and the transaction of each breach that is found.
type Row = (&'static str, u64, &'static [u64], &'static [(u64, u64)]);

/// Each row is worked by hand, with T1 500, T4 5000 and a tolerance of 50 milliseconds.
const ROWS: [Row; 9] = [
    // The client of a ends by 5060 (timer K, 17.1.2.2), and the server of b is idle again by 32160 (timer J, 17.2.2). The client of c is silent
    // and breaks.
    (
        "S 0 OPTIONS a; R 10 OPTIONS a 200; R 100 OPTIONS b; S 110 OPTIONS b 200; S 120 OPTIONS c; M 20000; M 40000; S 40010 OPTIONS c; R 40020 OPTIONS b",
        0,
        &[1, 1, 2, 2, 3, 1, 0, 1, 2],
        &[(6, 3)],
    ),
    // The last entry of a is the second one: the client of a is left while that entry is one of the newest two.
    (
        "S 0 OPTIONS a; R 10 OPTIONS a 200; M 20000; M 20000; M 20000",
        2,
        &[1, 1, 1, 0, 0],
        &[],
    ),
    // A client that was answered rests in Completed: a request that it sends again there is a breach.
    (
        "S 0 OPTIONS a; R 10 OPTIONS a 200; S 20 OPTIONS a",
        0,
        &[1, 1, 0],
        &[(3, 1)],
    ),
    // A client that has to send its request again is not over before it is too late to.
    ("S 0 OPTIONS a; M 400; M 600", 0, &[1, 1, 0], &[(3, 1)]),
    // A restart ends the client of a, and the server of b is idle again. Nobody has asked for what b sends after it.
    (
        "early 50 late 50; S 0 OPTIONS a; R 0 OPTIONS b; Z 100; M 200; S 300 OPTIONS a; S 310 OPTIONS b 200",
        0,
        &[1, 2, 0, 0, 1, 1],
        &[(6, 2)],
    ),
    // The restart is the last entry of a and of b: they are left as long as it is the newest entry.
    (
        "early 50 late 50; S 0 OPTIONS a; R 0 OPTIONS b; Z 100; M 200; S 300 OPTIONS a; S 310 OPTIONS b 200",
        1,
        &[1, 2, 2, 0, 1, 2],
        &[(6, 2)],
    ),
    // When a transaction is forgotten the others are numbered anew.
    (
        "S 0 OPTIONS a; R 10 OPTIONS a 200; S 20 OPTIONS b; M 20000; S 20010 OPTIONS c; M 30000",
        0,
        &[1, 1, 2, 0, 1, 0],
        &[(4, 2), (6, 1)],
    ),
    // A response that answers nothing leaves its transaction idle.
    ("R 0 OPTIONS a 200; M 10", 0, &[0, 0], &[]),
    // A client that has heard a 2xx to its INVITE ends by 64*T1 and 50 later (timer M, RFC 6026).
    (
        "S 0 INVITE a; R 10 INVITE a 200; M 31000; M 32100",
        0,
        &[1, 1, 1, 0],
        &[],
    ),
];

/// Appends how many transactions the survey has.
fn push_count(survey: &Survey<Hasher>, left: &mut Vec<u64>) -> Result<(), AllocError> {
    if let Some(SurveyEnd::Clean { transactions, .. }) = survey.end() {
        left.push(transactions)?;
    }
    Ok(())
}

/// Takes the entries of a log. After each one it forgets the transactions that are over and that none of the newest `behind` entries concerns, and
/// notes how many transactions are left.
fn takes_and_forgets(
    rt: &impl Abort,
    surveyed: &mut Surveyed<'_>,
    behind: u64,
    found: &mut Vec<Finding>,
    left: &mut Vec<u64>,
) -> Result<(), Fail> {
    // No row has as many as a hundred entries, so that each log is taken to its end.
    for _ in 0..100 {
        let Some(entry) = surveyed.next()? else {
            break;
        };
        take(rt, &mut surveyed.survey, &entry, found)?;
        surveyed.survey.forget(entry.number.saturating_sub(behind))?;
        push_count(&surveyed.survey, left)?;
    }
    Ok(())
}

/// The entry and the transaction of each breach among the findings.
fn breaches(alloc: Global, found: &[Finding]) -> Result<Vec<(u64, u64)>, AllocError> {
    let mut numbers = Vec::new(alloc);
    for finding in found {
        if let Finding::Breach { entry, transaction } = *finding {
            numbers.push((entry, transaction))?;
        }
    }
    Ok(numbers)
}

/// Checks that breaches alone are found: these, by their entries and transactions.
fn breaches_are(
    rt: &(impl Abort + AllocGlobal),
    found: &[Finding],
    wants: &[(u64, u64)],
    words: &str,
) -> Result<(), Fail> {
    let numbers = breaches(rt.alloc(), found)?;
    holds(rt, numbers.as_slice() == wants, words);
    holds(rt, found.len() == wants.len(), words);
    Ok(())
}

/// Checks the transactions that are left, and the findings, of a survey that takes the log of these words and forgets.
fn forgets(rt: &(impl Abort + AllocGlobal), (words, behind, left, found): Row) -> Result<(), Fail> {
    let log = log_of(rt.alloc(), words)?;
    let mut are_left = Vec::new(rt.alloc());
    let mut are_found = Vec::new(rt.alloc());
    let mut surveyed = Surveyed::open(rt.alloc(), log.as_str().as_bytes())?;
    let done = takes_and_forgets(rt, &mut surveyed, behind, &mut are_found, &mut are_left);
    surveyed.end();
    done?;
    holds(rt, are_left.as_slice() == left, words);
    breaches_are(rt, are_found.as_slice(), found, words)
}

/// Each row tells how many transactions are left after each entry.
#[test]
fn a_survey_forgets_what_is_over(rt: HostRuntime) -> Result<(), Fail> {
    for row in &ROWS {
        forgets(&rt, *row)?;
    }
    Ok(())
}

/// Checks that the first transaction of the survey began at this entry, and has this branch.
fn first_is(
    rt: &impl Abort,
    survey: &Survey<Hasher>,
    (entry, branch): (u64, &str),
) -> Result<(), Fail> {
    let told = survey.transaction(1).ok_or("no transaction")?;
    holds(rt, told.first == entry && told.last == entry, "its entries");
    let spelled = str::from_utf8(told.branch).map_err(|_| "no text")?;
    reads(rt, spelled, branch, "its branch");
    Ok(())
}

/// Takes the entries of a log, forgets after each one the transactions that are over, and checks the first transaction that is left.
fn takes_and_tells(
    rt: &impl Abort,
    surveyed: &mut Surveyed<'_>,
    found: &mut Vec<Finding>,
    left: &mut Vec<u64>,
) -> Result<(), Fail> {
    takes_and_forgets(rt, surveyed, 0, found, left)?;
    first_is(rt, &surveyed.survey, (3, "z9hG4bKb"))
}

/// The server of b has the first number once the client of a is forgotten, and keeps its own history. The next entry has the next number.
#[test]
fn what_is_left_is_told_by_its_new_number(rt: HostRuntime) -> Result<(), Fail> {
    let log = log_of(
        rt.alloc(),
        "S 0 OPTIONS a; R 10 OPTIONS a 200; R 15000 OPTIONS b",
    )?;
    let mut left = Vec::new(rt.alloc());
    let mut found = Vec::new(rt.alloc());
    let mut surveyed = Surveyed::open(rt.alloc(), log.as_str().as_bytes())?;
    let done = takes_and_tells(&rt, &mut surveyed, &mut found, &mut left);
    let end = surveyed.end();
    done?;
    let clean = SurveyEnd::Clean {
        entries: 3,
        transactions: 1,
    };
    holds(&rt, end == Some(clean), "at the end");
    Ok(())
}

/// Forgets, and checks that a survey that fails at it wants memory, and says from then on that it failed.
fn forgets_or_fails(
    rt: &impl Abort,
    survey: &mut Survey<Hasher>,
    until: u64,
) -> Result<(), StepError> {
    let Err(error) = survey.forget(until) else {
        return Ok(());
    };
    holds(rt, error == StepError::Memory, "want of memory");
    let again = survey.forget(until);
    holds(
        rt,
        again == Err(StepError::Failed),
        "of a survey that failed",
    );
    Err(error)
}

/// Takes the entries of a log, and forgets after each one the transactions that are over, until the survey fails at it.
fn takes_and_fails(
    rt: &impl Abort,
    surveyed: &mut Surveyed<'_>,
    found: &mut Vec<Finding>,
) -> Result<Option<StepError>, Fail> {
    for _ in 0..100 {
        let Some(entry) = surveyed.next()? else {
            break;
        };
        take(rt, &mut surveyed.survey, &entry, found)?;
        if let Err(error) = forgets_or_fails(rt, &mut surveyed.survey, entry.number) {
            return Ok(Some(error));
        }
    }
    Ok(None)
}

/// `tests/growths` refuses each growth in turn. A survey that failed has no end, and one that did not fail has the server of b alone.
#[test]
fn refused_while_a_survey_forgets(rt: HostRuntime) -> Result<(), Fail> {
    let words = "S 0 OPTIONS a; R 10 OPTIONS a 200; R 15000 OPTIONS b";
    let log = log_of(rt.alloc(), words)?;
    let mut found = Vec::new(rt.alloc());
    let mut surveyed = Surveyed::open(rt.alloc(), log.as_str().as_bytes())?;
    let failed = takes_and_fails(&rt, &mut surveyed, &mut found);
    let end = surveyed.end();
    let Some(error) = failed? else {
        let clean = SurveyEnd::Clean {
            entries: 3,
            transactions: 1,
        };
        holds(&rt, end == Some(clean), "at the end");
        return Ok(());
    };
    holds(&rt, end.is_none(), "of a survey that failed");
    Err(error.into())
}
