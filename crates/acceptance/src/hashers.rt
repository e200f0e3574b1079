//! Hashers of keys: one of a given seed, and one that gives all keys the same hash.
use std::hash::{BuildHasher, Hasher};
use std::io;
use std::random::RandomSource;

/// Random bytes that are all the same.
#[derive(Drop)]
pub(crate) struct Same(pub(crate) u8);

impl RandomSource for Same {
    // Each byte that is asked for is the one of this value.
    fn fill_bytes(&self, buf: &mut [u8]) -> io::Result<()> {
        buf.fill(self.0);
        Ok(())
    }
}

/// Hashes everything to 0.
#[derive(Drop)]
pub(crate) struct Zero;

impl Hasher for Zero {
    // This hasher keeps nothing of what it is given.
    ghost write = { λ s _. s };

    // Whatever was written, the hash is 0.
    ghost finish = { λ _. 0 };

    fn finish(&self) -> u64 {
        0
    }

    fn write(&mut self, _bytes: &[u8]) {}
}

/// Makes hashers that hash everything to 0.
#[derive(Drop)]
pub(crate) struct AllZero;

impl BuildHasher for AllZero {
    type Hasher = Zero;

    // Contracts see the hasher that is built as a value without a field, as `Zero` is.
    ghost build_hasher = { λ _. record {} };

    fn build_hasher(&self) -> Zero {
        Zero
    }
}
