//! The platform that std gives to a program. This is all that is trusted of the program itself: std tells no words, and of no file which
//! bytes it has, so that no contract says that each call asks std for what its name says.

ghost use Rattle.std.specs.Prelude.{None};

use sip_program::Platform;
use std::fs::File;
use std::hash::RandomState;
use std::{env, io};

/// The platform as std gives it.
#[derive(Drop)]
pub struct StdPlatform {
    rt: HostRuntime,
}

impl StdPlatform {
    /// The platform of `main`.
    pub fn new(rt: HostRuntime) -> StdPlatform {
        StdPlatform { rt }
    }
}

impl Platform for StdPlatform {
    // Neither the words nor any file is known, so that contracts say nothing of what they are.
    ghost words = { λ _. None };

    ghost file = { λ _ _. None };

    type Seed = RandomState;

    type File = File;

    // `env::args`: all words of the process, the program's name the first; an error where one is no text.
    fn words(&self) -> io::Result<Vec<String>> {
        Ok(env::args(&self.rt)?.collect(self.rt.alloc())?)
    }

    // `RandomState::new`: keys of the system's random bytes; an error where it gives none.
    fn seed(&self) -> io::Result<RandomState> {
        RandomState::new(&self.rt)
    }

    // `File::open`: the file at this very path, to be read from its first byte.
    fn open(&self, path: &str) -> io::Result<File> {
        File::open(&self.rt, path)
    }
}
