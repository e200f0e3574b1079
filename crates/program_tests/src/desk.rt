//! The platform of the tests.
ghost use Rattle.std.specs.Prelude.{None, Some, if◌then◌else◌, bytes_eq, map, string_bytes};

use crate::seeds::Same;
use sip_program::Platform;
use std::hash::RandomState;
use std::io;

/// A platform that gives these words and has one file.
#[derive(Drop)]
pub(crate) struct Desk<'a> {
    pub(crate) words: Vec<String>,
    /// The path of its file.
    pub(crate) path: &'a str,
    /// What the file has.
    pub(crate) bytes: &'a [u8],
}

impl<'a> Platform for Desk<'a> {
    // Its words are known, and one path opens its file.
    ghost words = { λ desk. Some (map string_bytes desk.words.items) };

    ghost file = { λ desk path. if bytes_eq path desk.path.now then Some desk.bytes.now else None };

    // Hashers are those of std, and a file is its bytes.
    type Seed = RandomState;

    type File = &'a [u8];

    // The words are handed out as a copy, of which the lemma says that it tells the same bytes.
    #[tactic(auto, using(crate::proofs::WordLemmas::told_alike))]
    fn words(&self) -> io::Result<Vec<String>> {
        Ok(self.words.clone()?)
    }

    // The seed is always the same one.
    fn seed(&self) -> io::Result<RandomState> {
        RandomState::new(&Same(1))
    }

    // Only the one path has a file.
    fn open(&self, path: &str) -> io::Result<&'a [u8]> {
        if path != self.path {
            return Err(io::Error::from(io::ErrorKind::NotFound));
        }
        Ok(self.bytes)
    }
}
