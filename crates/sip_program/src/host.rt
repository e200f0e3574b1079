//! The system that the program runs on, over a platform.
ghost use Rattle.std.specs.Prelude.{◌≡◌, false, drop, option_map};
ghost use Rattle.sip_program.specs.Reading.{left_of};

use crate::platform::Platform;
use sip_log::{Broken, FromRead, Source};
use sip_standard::System;
use std::io;
use std::io::Read;

/// The log that is read: the standard input, or a file.
#[derive(Debug, Drop)]
enum Log<I, F> {
    Input(FromRead<I>),
    File(FromRead<F>),
}

/// The system that a platform makes, with a reader as its standard input.
#[derive(Drop)]
#[derive_where(Debug; P, I, P::File)]
pub struct Host<P: Platform + Drop, I: Drop> {
    platform: P,
    /// The standard input, or the file that was opened in its place.
    log: Log<I, P::File>,
    /// Whether the platform or a read has failed.
    failed: bool,
}

impl<P: Platform + Drop, I: Read + Drop> Host<P, I> {
    /// The system of a platform, with its standard input.
    pub fn new(platform: P, input: I) -> Host<P, I>
        ensures input { ⟦<Host<P, I> as Source>⟧.left result ≡ I.remaining input }
        ensures words { ⟦<Host<P, I> as System>⟧.words result ≡ option_map (drop 1) (P.words platform) }
        ensures files { ⟦<Host<P, I> as System>⟧.file result ≡ P.file platform }
        ensures fine { ⟦<Host<P, I> as Source>⟧.has_failed result ≡ false }
    {
        Host {
            platform,
            log: Log::Input(FromRead::new(input)),
            failed: false,
        }
    }
}

/// All words but the first, which is the program's name.
fn behind_name(mut words: Vec<String>) -> Vec<String>
    ensures { result.items ≡ drop 1 words.items }
{
    if !words.is_empty() {
        words.remove(0);
    }
    words
}

impl<P: Platform + Drop, I: Read + Drop> Source for Host<P, I> {
    // What is left to read is that of the log that was opened, or of the standard input.
    ghost left = { λ host. left_of ⟦<FromRead<I> as Source>⟧.left ⟦<FromRead<P::File> as Source>⟧.left host.log };

    // Whether anything has failed is what the flag says.
    ghost has_failed = { λ host. host.failed };

    // Bytes come from the log that is open; where a read fails, it is kept that one has.
    fn fill(&mut self, buf: &mut [u8]) -> Result<usize, Broken> {
        let count = match &mut self.log {
            Log::Input(input) => input.fill(buf),
            Log::File(file) => file.fill(buf),
        };
        self.failed |= count.is_err();
        count
    }

    fn has_failed(&self) -> bool {
        self.failed
    }
}

impl<P: Platform + Drop, I: Read + Drop> System for Host<P, I> {
    // The words are those of the platform without the name of the program, and a path opens what it opens there.
    ghost words = { λ host. option_map (drop 1) (P.words host.platform) };

    ghost file = { λ host. P.file host.platform };

    type Seed = P::Seed;

    // The words come without the program's name; where they, a seed or a file cannot be had, it is kept that something has failed.
    fn words(&mut self) -> io::Result<Vec<String>> {
        let words = self.platform.words();
        self.failed |= words.is_err();
        Ok(behind_name(words?))
    }

    // A seed is the platform's.
    fn seed(&mut self) -> io::Result<P::Seed> {
        let seed = self.platform.seed();
        self.failed |= seed.is_err();
        seed
    }

    // The file of the platform at this path is read from then on, in place of what was read before.
    fn open(&mut self, path: &str) -> io::Result<()> {
        let file = self.platform.open(path);
        self.failed |= file.is_err();
        self.log = Log::File(FromRead::new(file?));
        Ok(())
    }
}
