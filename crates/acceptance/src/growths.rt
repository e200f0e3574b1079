//! Logs that are judged and listed while memory is refused: `tests/growths` refuses each growth in turn. Each test then fails for want of
//! memory, or passes with the answer that it has with ample memory. Logs are spelled in the words of `notation.rt`: `S` sent, `R` received, `M` a mark
//! and `Z` a restart, each with its moments; then a method, a branch without the cookie, and the code where it is a response.
use crate::listed::lists;
use crate::verdicts::judges;
use std::test::Fail;

/// A server that sends its final response again.
#[test]
fn refused_while_a_server_repeats(rt: HostRuntime) -> Result<(), Fail> {
    let words = "R 0 INVITE 1; S 0 INVITE 1 486; R 480 INVITE 1; S 490,540 INVITE 1 486";
    judges(&rt, (words, "legal entries 5 transactions 1"))
}

/// A client that sends an INVITE, and then a CANCEL of it.
#[test]
fn refused_while_a_call_is_cancelled(rt: HostRuntime) -> Result<(), Fail> {
    let words = "S 0 INVITE 1; R 50 INVITE 1 180; S 100 CANCEL 1";
    judges(&rt, (words, "legal entries 3 transactions 2"))
}

/// A non-INVITE client that sends its request again.
#[test]
fn refused_while_a_client_registers(rt: HostRuntime) -> Result<(), Fail> {
    let words = "S 0,500 REGISTER r1; R 700 REGISTER r1 200; M 6000";
    judges(&rt, (words, "legal entries 4 transactions 1"))
}

/// A client and a server that a restart ends, and a server after it.
#[test]
fn refused_while_an_element_is_restarted(rt: HostRuntime) -> Result<(), Fail> {
    let words =
        "early 50 late 50; rules 3261; S 0 INVITE 1; R 0 INVITE 1; Z 200; R 300 INVITE 1; S 310 INVITE 1 200";
    judges(&rt, (words, "legal entries 5 transactions 2"))
}

/// The states of a server that has sent its final response again.
#[test]
fn refused_while_a_repeat_is_listed(rt: HostRuntime) -> Result<(), Fail> {
    lists(
        &rt,
        (
            "R 0 INVITE 1; S 0 INVITE 1 486; R 480 INVITE 1; S 490,530 INVITE 1 486",
            5,
            "transaction 1 server INVITE states 2\n  \
            completed reliable=no final=2 set=0 repeat=490 interval=1000\n  \
            completed reliable=no final=2 set=0 repeat=530 interval=1000\n",
        ),
    )
}

/// The states of two transactions that one entry concerns.
#[test]
fn refused_while_a_cancel_is_listed(rt: HostRuntime) -> Result<(), Fail> {
    lists(
        &rt,
        (
            "S 0 INVITE 1; R 50 INVITE 1 180; S 100 CANCEL 1",
            3,
            "transaction 2 client CANCEL states 1\n  trying reliable=no request=3 start=100 set=100 interval=500\n\
            transaction 1 client INVITE states 1\n  proceeding reliable=no request=1 cancel=100\n",
        ),
    )
}

/// The states of a non-INVITE client after its final response.
#[test]
fn refused_while_a_response_is_listed(rt: HostRuntime) -> Result<(), Fail> {
    lists(
        &rt,
        (
            "S 0,500 REGISTER r1; R 700 REGISTER r1 200; M 6000",
            3,
            "transaction 1 client REGISTER states 1\n  completed reliable=no set=700\n",
        ),
    )
}

/// The states of an entry that concerns no transaction.
#[test]
fn refused_while_a_mark_is_listed(rt: HostRuntime) -> Result<(), Fail> {
    let words = "S 0,500 REGISTER r1; R 700 REGISTER r1 200; M 6000";
    lists(&rt, (words, 4, "no transaction\n"))
}
