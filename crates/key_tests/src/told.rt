//! Tests of what the errors of `sip_key` say.

use crate::wants::is;
use sip_key::KeyError;
use std::test::Fail;

/// Each error says what is wrong.
#[test]
fn errors_say_what_is_wrong(rt: HostRuntime) -> Result<(), Fail> {
    let rows = [
        (KeyError::Memory, "out of memory"),
        (
            KeyError::NoCookie,
            "the top branch of a sent request lacks the cookie",
        ),
    ];
    for (error, told) in rows {
        is(&rt, error.to_string(rt.alloc())?.as_str(), told);
    }
    Ok(())
}
