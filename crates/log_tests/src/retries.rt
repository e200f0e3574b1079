//! Reads of std that fail: which of them are tried again.

use crate::wants::is;
use sip_log::{FromRead, Source, read_entries};
use std::io;
use std::io::Read;

/// Gives one byte at each call, once the first calls have failed.
#[derive(Drop)]
struct OneByOne {
    /// How many calls are still to fail.
    failures: u8,
    /// The kind of error with which they fail.
    kind: io::ErrorKind,
}

impl Read for OneByOne {
    // Fails while failures are left, and then gives an `M` at each call that has room for one.
    fn read(&mut self, buf: &mut [u8]) -> io::Result<usize> {
        if self.failures > 0 {
            self.failures -= 1;
            return Err(io::Error::from(self.kind));
        }
        if buf.is_empty() {
            return Ok(0);
        }
        buf[0] = b'M';
        Ok(1)
    }
}

/// A read that is interrupted is tried again, and does not count as failed.
#[test]
fn tries_an_interrupted_read_again(rt: HostRuntime) {
    let mut source = FromRead::new(OneByOne {
        failures: 2,
        kind: io::ErrorKind::Interrupted,
    });
    let mut buf = [0; 4];
    is(&rt, source.fill(&mut buf).ok(), Some(1));
    assert!(rt; !source.has_failed());
}

/// A read that fails otherwise is told as failed.
#[test]
fn tells_any_other_error(rt: HostRuntime) {
    let mut source = FromRead::new(OneByOne {
        failures: 1,
        kind: io::ErrorKind::TimedOut,
    });
    let mut buf = [0; 4];
    assert!(rt; source.fill(&mut buf).is_err());
    assert!(rt; source.has_failed());
}

/// How many bytes the source gives when it is filled from through a bound on its type.
fn fill_through<S: Source + Drop>(mut source: S, buf: &mut [u8]) -> Option<usize> {
    source.fill(buf).ok()
}

/// A buffer of each length up to 256 is filled, as far as there are bytes.
#[test]
fn fills_buffers_of_every_length(rt: HostRuntime) {
    let bytes = [b'x'; 300];
    let mut buf = [0; 256];
    for len in 0..=256 {
        let mut whole = FromRead::new(bytes.as_slice());
        // A reader of std, and bytes as a source, fill the whole buffer; a second call gives what is left of the 300 bytes, up to 256.
        is(&rt, fill_through(&mut whole, &mut buf[..len]), Some(len));
        is(
            &rt,
            fill_through(bytes.as_slice(), &mut buf[..len]),
            Some(len),
        );
        is(
            &rt,
            fill_through(&mut whole, &mut buf),
            Some(256.min(300 - len)),
        );
        assert!(rt; !whole.has_failed());
        // A reader that gives one byte a call is not asked twice for one buffer.
        let mut single = FromRead::new(OneByOne {
            failures: 0,
            kind: io::ErrorKind::Other,
        });
        is(&rt, single.fill(&mut buf[..len]).ok(), Some(len.min(1)));
    }
}

/// Tells its end once, and fails at every later call.
#[derive(Drop)]
struct OnceEnded<'a> {
    /// The bytes that were not handed out yet.
    bytes: &'a [u8],
    /// Whether the end was told.
    ended: bool,
}

impl<'a> Read for OnceEnded<'a> {
    // Gives as many bytes as there is room for. Where there is room and none is left, it has told its end, and fails from then on.
    fn read(&mut self, buf: &mut [u8]) -> io::Result<usize> {
        if self.ended {
            return Err(io::Error::from(io::ErrorKind::TimedOut));
        }
        let count = self.bytes.len().min(buf.len());
        self.ended = count == 0 && !buf.is_empty();
        let (front, behind) = self.bytes.split_at(count);
        buf[..count].copy_from_slice(front);
        self.bytes = behind;
        Ok(count)
    }
}

/// A reader is asked once for its end, even though the end is looked for twice after a header: for a line of rules and for an entry.
#[test]
fn a_reader_that_told_its_end_is_not_asked_again(rt: HostRuntime) {
    for bytes in [
        b"sip-trace 1\nt1 500 t2 4000 t4 5000 tolerance 50\n".as_slice(),
        b"sip-trace 2\nt1 500 t2 4000 t4 5000 early 50 late 50\nM 0\n".as_slice(),
    ] {
        let reader = OnceEnded {
            bytes,
            ended: false,
        };
        let entries = read_entries(rt.alloc(), &mut FromRead::new(reader));
        assert!(rt; entries.is_ok());
    }
}
