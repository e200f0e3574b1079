//! Random bytes that a test knows.
use std::io;
use std::random::RandomSource;

/// Random bytes that are all the same.
#[derive(Drop)]
pub(crate) struct Same(pub(crate) u8);

impl RandomSource for Same {
    // Each byte that is asked for is the one of this value.
    fn fill_bytes(&self, buf: &mut [u8]) -> io::Result<()> {
        buf.fill(self.0);
        Ok(())
    }
}
