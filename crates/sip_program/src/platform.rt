//! What the program asks of what it runs on.
ghost use Rattle.std.specs.Prelude.{◌≡◌, ℕ, List, Option, map, string_bytes, IfSome, IfOk};

use std::hash::BuildHasher;
use std::io;
use std::io::Read;

/// What a program runs on: its words, seeds and files.
pub trait Platform {
    // The words that the program is given, its own name the first, where they are known.
    ghost words: { Self → Option (List (List ℕ)) };

    // The bytes of the file at a path, where they are known. Each implementation says itself of which files they are.
    ghost file: { Self → List ℕ → Option (List ℕ) };

    /// The hashers that a seed makes.
    type Seed: BuildHasher + Drop;

    /// The reader of an opened file.
    type File: Read + Drop;

    /// The words that the program is given, its own name the first.
    fn words(&self) -> io::Result<Vec<String>>
        ensures words { IfOk result (λ given. IfSome (words self.now) (λ known. map string_bytes given.items ≡ known)) };

    /// A random seed for hashing.
    fn seed(&self) -> io::Result<Self::Seed>;

    /// Opens the file at a path, to be read from its first byte.
    fn open(&self, path: &str) -> io::Result<Self::File>
        ensures bytes { IfOk result (λ opened. Self.File.remaining opened ≡ file self.now path.now) };
}
