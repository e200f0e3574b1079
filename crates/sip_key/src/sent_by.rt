//! The sent-by of a Via as keys have it.
ghost use Rattle.std.specs.Prelude.{◌≡◌, ◌++◌, ◌∷◌, IfSome, OnOk, decimal, option_copied};
ghost use Rattle.std.specs.Str.Parse.{digits_value};
ghost use Rattle.sip_standard.specs.Profile.{Port};
ghost use Rattle.sip_text.specs.Bytes.{colon};
ghost use Rattle.sip_standard.specs.SentBy.{port_number};

use itoa::Buffer;
use std::alloc::AllocError;

// The port of a sent-by that gives none, whatever the transport is.
const DEFAULT_PORT: u16 = 5060;

/// The most bytes of `:` and a port.
pub(crate) const MOST_PORT_BYTES: usize = 6;

/// Puts `:` and the port as a number in decimal after the text.
pub(crate) fn push_port(text: &mut Vec<u8>, port: Option<&[u8]>) -> Result<(), AllocError>
    requires { IfSome (option_copied port) Port }
    ensures { OnOk result (text.new.items ≡ text.old.items ++ colon ∷ decimal (port_number (option_copied port.entry))) }
{
    text.push(b':')?;
    text.extend_from_slice(Buffer::new().format(port_number(port)).as_bytes())
}

// The number of the port, and that of the default port where none is given.
fn port_number(port: Option<&[u8]>) -> u16
    requires { IfSome (option_copied port) Port }
    ensures { result ≡ port_number (option_copied port.entry) }
{
    match port {
        Some(digits) => number(digits),
        None => DEFAULT_PORT,
    }
}

// The number that the digits of a port write.
fn number(digits: &[u8]) -> u16
    requires { Port digits.now }
    ensures { result ≡ digits_value 10 digits.now }
{
    let mut number: u16 = 0;
    for digit in digits {
        number = number * 10 + u16::from(*digit - b'0');
    }
    number
}
