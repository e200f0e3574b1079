//! Why the program ends without its answer.
ghost use Rattle.std.specs.Prelude.{◌≡◌, ◌≢◌};
ghost use Rattle.std.specs.IoError.{error_kind};
ghost use Rattle.std.specs.declared.io.ErrorKind.TheVariants.{OutOfMemory};
ghost use Rattle.sip_standard.specs.declared.failure.Failure.TheVariants.{Memory, Read};
ghost use Rattle.sip_program.specs.Failures.{status_without};

use sip_standard::Failure;
use std::io;

/// The status that the program ends with where it has no answer.
pub fn status_without(failure: &Failure) -> u8
    ensures { result ≡ status_without failure.now }
{
    match failure {
        Failure::Read | Failure::Write | Failure::Memory => 4,
        Failure::Usage => 5,
    }
}

/// The failure that stands for an error of the system: want of memory where that is the error, and else that something cannot be read.
pub fn read_failure(error: io::Error) -> Failure
    ensures memory { error_kind error ≡ OutOfMemory → result ≡ Memory }
    ensures read { error_kind error ≢ OutOfMemory → result ≡ Read }
{
    if error.kind() == io::ErrorKind::OutOfMemory {
        Failure::Memory
    } else {
        Failure::Read
    }
}
