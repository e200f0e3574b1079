//! What the faults of messages say.

use crate::wants::is;
use sip_message::{Fault, ReadError, Reason, Unit};
use std::test::Fail;

/// A unit and a reason that can stand for it, for each reason, and what the fault says.
static FAULTS: &[(Unit, Reason, &str)] = &[
    (
        Unit::Head,
        Reason::NoHeadEnd,
        "head: no empty line ends the head (1 NoHeadEnd)",
    ),
    (
        Unit::Head,
        Reason::BareLineEnd,
        "head: a CR stands without LF, or an LF without CR (2 BareLineEnd)",
    ),
    (
        Unit::Line(0),
        Reason::StartLine,
        "line 0: neither a request line nor a status line (3 StartLine)",
    ),
    (
        Unit::Line(2),
        Reason::FieldLine,
        "line 2: no field name and colon (4 FieldLine)",
    ),
    (
        Unit::Line(10),
        Reason::Value,
        "line 10: the value is not of its field's form (5 Value)",
    ),
    (
        Unit::Line(7),
        Reason::Repeated,
        "line 7: the field stands twice, and may stand once (6 Repeated)",
    ),
    (
        Unit::Head,
        Reason::Missing,
        "head: Via, From, To, Call-ID or CSeq is missing (7 Missing)",
    ),
    (
        Unit::Line(5),
        Reason::MethodMismatch,
        "line 5: the method of CSeq is not that of the request (8 MethodMismatch)",
    ),
    (
        Unit::Body,
        Reason::NoLength,
        "body: a stream has no Content-Length (9 NoLength)",
    ),
    (
        Unit::Body,
        Reason::ShortBody,
        "body: shorter than Content-Length says (10 ShortBody)",
    ),
    (
        Unit::Body,
        Reason::LongBody,
        "body: longer than Content-Length says (11 LongBody)",
    ),
    (
        Unit::Head,
        Reason::NoCookie,
        "head: the top branch of a sent request lacks the cookie (12 NoCookie)",
    ),
];

/// Each fault says its unit and its reason, and the error with it says the same.
#[test]
fn faults_say_what_is_wrong_and_where(rt: HostRuntime) -> Result<(), Fail> {
    for (unit, reason, told) in FAULTS {
        let fault = Fault {
            unit: *unit,
            reason: *reason,
        };
        is(&rt, fault.to_string(rt.alloc())?.as_str(), *told, told);
        let error = ReadError::Fault(fault);
        is(&rt, error.to_string(rt.alloc())?.as_str(), *told, told);
    }
    let refused = ReadError::Memory;
    let told = refused.to_string(rt.alloc())?;
    is(&rt, told.as_str(), "out of memory", &"no memory");
    Ok(())
}
