//! The seed of a hasher.

use sip_verdict::JudgeError;
use std::hash::RandomState;
use std::io;
use std::random::RandomSource;

/// Bytes that nobody who sends messages can guess, such as random bytes of the system. No verdict depends on them: they seed the hasher of the
/// keys of transactions, so that nobody can make a log that takes long to judge.
#[repr(C)]
#[derive(Clone, Copy, Debug)]
pub struct Seed {
    pub bytes: [u8; 16],
}

impl RandomSource for Seed {
    fn fill_bytes(&self, buf: &mut [u8]) -> io::Result<()> {
        // A hasher asks for 16 bytes at once, so that it gets all of them.
        let count = buf.len().min(self.bytes.len());
        buf[..count].copy_from_slice(&self.bytes[..count]);
        Ok(())
    }
}

impl Seed {
    /// The hasher of this seed. The seed always gives its bytes, so that there is always a hasher.
    pub(crate) fn hasher(&self) -> Result<RandomState, JudgeError> {
        match RandomState::new(self) {
            Ok(hasher) => Ok(hasher),
            Err(_) => Err(JudgeError::Memory),
        }
    }
}
