//! The faults of a message.
ghost use Rattle.std.specs.Prelude.{◌≡◌};
ghost use Rattle.sip_standard.specs.Reason.{reason_number, reason_name};

use std::fmt;
use thiserror::Error;

/// Where a fault is.
#[derive(Clone, Copy, Debug, PartialEq, Eq)]
pub enum Unit {
    /// The head as a whole.
    Head,
    /// A logical line; line 0 is the start line.
    Line(usize),
    /// The body.
    Body,
}

// The words in which a `Fault` is printed begin with where it is.
impl fmt::Display for Unit {
    fn fmt<W: fmt::Write>(&self, f: &mut fmt::Formatter<W>) -> fmt::Result {
        match self {
            Unit::Head => f.write_str("head"),
            Unit::Line(number) => write!(f, "line {number}"),
            Unit::Body => f.write_str("body"),
        }
    }
}

/// What is wrong with a message.
#[derive(Clone, Copy, Debug, PartialEq, Eq)]
pub enum Reason {
    /// There is no empty line.
    NoHeadEnd,
    /// In the head a CR stands without LF, or an LF without CR.
    BareLineEnd,
    /// The start line is neither a request line nor a status line.
    StartLine,
    /// A line has no name and colon.
    FieldLine,
    /// A value is not of its field's row.
    Value,
    /// A field stands twice that may stand once.
    Repeated,
    /// A field is missing.
    Missing,
    /// The method of CSeq is not that of the request.
    MethodMismatch,
    /// A stream has no Content-Length.
    NoLength,
    /// The body is shorter than Content-Length.
    ShortBody,
    /// A stream's body is longer than Content-Length.
    LongBody,
    /// The top branch of a sent request lacks the cookie. Keys answer it, and `read` never does.
    NoCookie,
}

impl Reason {
    /// The number by which a verdict names it, 1 to 12.
    pub fn number(self) -> u8
        ensures { result ≡ reason_number self }
    {
        match self {
            Reason::NoHeadEnd => 1,
            Reason::BareLineEnd => 2,
            Reason::StartLine => 3,
            Reason::FieldLine => 4,
            Reason::Value => 5,
            Reason::Repeated => 6,
            Reason::Missing => 7,
            Reason::MethodMismatch => 8,
            Reason::NoLength => 9,
            Reason::ShortBody => 10,
            Reason::LongBody => 11,
            Reason::NoCookie => 12,
        }
    }

    /// The name that stands after the number.
    pub fn name(self) -> &'static str
        ensures { result.now ≡ reason_name self }
    {
        match self {
            Reason::NoHeadEnd => "NoHeadEnd",
            Reason::BareLineEnd => "BareLineEnd",
            Reason::StartLine => "StartLine",
            Reason::FieldLine => "FieldLine",
            Reason::Value => "Value",
            Reason::Repeated => "Repeated",
            Reason::Missing => "Missing",
            Reason::MethodMismatch => "MethodMismatch",
            Reason::NoLength => "NoLength",
            Reason::ShortBody => "ShortBody",
            Reason::LongBody => "LongBody",
            Reason::NoCookie => "NoCookie",
        }
    }
}

// The words in which a `Fault` is printed go on with what is wrong.
impl fmt::Display for Reason {
    fn fmt<W: fmt::Write>(&self, f: &mut fmt::Formatter<W>) -> fmt::Result {
        f.write_str(match self {
            Reason::NoHeadEnd => "no empty line ends the head",
            Reason::BareLineEnd => "a CR stands without LF, or an LF without CR",
            Reason::StartLine => "neither a request line nor a status line",
            Reason::FieldLine => "no field name and colon",
            Reason::Value => "the value is not of its field's form",
            Reason::Repeated => "the field stands twice, and may stand once",
            Reason::Missing => "Via, From, To, Call-ID or CSeq is missing",
            Reason::MethodMismatch => "the method of CSeq is not that of the request",
            Reason::NoLength => "a stream has no Content-Length",
            Reason::ShortBody => "shorter than Content-Length says",
            Reason::LongBody => "longer than Content-Length says",
            Reason::NoCookie => "the top branch of a sent request lacks the cookie",
        })
    }
}

/// A fault of a message.
#[derive(Clone, Copy, Debug, PartialEq, Eq, Error)]
#[error("{unit}: {reason} ({} {})", .reason.number(), .reason.name())]
pub struct Fault {
    /// Where the fault is.
    pub unit: Unit,
    /// What is wrong.
    pub reason: Reason,
}
