//! What the program asks of the system that it runs on.
ghost use Rattle.std.specs.Prelude.{◌≡◌, ℕ, Bool, true, List, Option, map, string_bytes, IfSome, OnOk, OnErr, IfOk};

use crate::source::Source;
use std::hash::BuildHasher;
use std::io;

/// The system that a program runs on: a source of the standard input, and from then on that a file is opened, of that file.
pub trait System: Source {
    // The words after the program's name, where they are known.
    ghost words: { Self → Option (List (List ℕ)) };

    // The bytes of the file at a path, where they are known. Each implementation says so itself.
    ghost file: { Self → List ℕ → Option (List ℕ) };

    /// What a seed is for.
    type Seed: BuildHasher + Drop;

    /// The words after the program's name.
    fn words(&mut self) -> io::Result<Vec<String>>
        ensures words { IfOk result (λ given. IfSome (words self.old) (λ known. map string_bytes given.items ≡ known)) }
        ensures log { OnOk result (Self.left self.new ≡ Self.left self.old) }
        ensures files { OnOk result (file self.new ≡ file self.old) }
        ensures ok { OnOk result (Self.has_failed self.new ≡ Self.has_failed self.old) }
        ensures err { OnErr result (Self.has_failed self.new ≡ true) };

    /// A random seed for hashing.
    fn seed(&mut self) -> io::Result<Self::Seed>
        ensures log { OnOk result (Self.left self.new ≡ Self.left self.old) }
        ensures files { OnOk result (file self.new ≡ file self.old) }
        ensures ok { OnOk result (Self.has_failed self.new ≡ Self.has_failed self.old) }
        ensures err { OnErr result (Self.has_failed self.new ≡ true) };

    /// Opens the file at a path: it is what is read from here on.
    fn open(&mut self, path: &str) -> io::Result<()>
        ensures log { OnOk result (Self.left self.new ≡ file self.old path.now) }
        ensures ok { OnOk result (Self.has_failed self.new ≡ Self.has_failed self.old) }
        ensures err { OnErr result (Self.has_failed self.new ≡ true) };
}
