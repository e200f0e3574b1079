//! Sinks and sources that are used through references, as readers and writers of logs use theirs. What the bytes say plays no part.

use crate::devices::{Pieces, Room};
use crate::wants::is;
use sip_log::{Sink, Source, ToWrite};

/// Whether the sink takes the bytes, and has not failed.
fn takes<S: Sink + Drop>(mut sink: S, bytes: &[u8]) -> (bool, bool) {
    let taken = sink.put(bytes).is_ok();
    (taken, !sink.has_failed())
}

/// How many bytes the source gives, and whether it has not failed.
fn gives<S: Source + Drop>(mut source: S, buf: &mut [u8]) -> (Option<usize>, bool) {
    let given = source.fill(buf).ok();
    (given, !source.has_failed())
}

/// A sink that is used through a reference takes what it is given.
#[test]
fn a_sink_takes_all_through_a_reference(rt: HostRuntime) {
    let mut text = Vec::new(rt.alloc());
    let mut sink = ToWrite::new(&mut text);
    is(&rt, takes(&mut sink, b"M 5\n"), (true, true));
    is(&rt, takes(&mut sink, b"Z 6\n"), (true, true));
    is(&rt, text.as_slice(), b"M 5\nZ 6\n".as_slice());
}

/// A sink that is used through a reference fails where it would, and says so.
#[test]
fn a_sink_fails_through_a_reference(rt: HostRuntime) {
    let mut room = Room::of(1);
    is(&rt, takes(&mut room, b"M 5\n"), (true, true));
    is(&rt, takes(&mut room, b"M 5\n"), (false, false));
    is(&rt, room.taken(), 1);
    assert!(rt; room.has_failed());
}

/// A source that is used through a reference gives its bytes in order, up to its end.
#[test]
fn a_source_gives_through_a_reference(rt: HostRuntime) {
    let mut source = b"M 5\n".as_slice();
    let mut buf = [0; 3];
    is(&rt, gives(&mut source, &mut buf), (Some(3), true));
    is(&rt, buf, [b'M', b' ', b'5']);
    is(&rt, gives(&mut source, &mut buf), (Some(1), true));
    is(&rt, buf[0], b'\n');
    is(&rt, gives(&mut source, &mut buf), (Some(0), true));
}

/// A source that is used through a reference fails where it would, and says so.
#[test]
fn a_source_fails_through_a_reference(rt: HostRuntime) {
    let mut source = Pieces::failing(b"M 5\n", 1);
    let mut buf = [0; 3];
    is(&rt, gives(&mut source, &mut buf), (Some(1), true));
    is(&rt, gives(&mut source, &mut buf), (None, false));
    assert!(rt; source.has_failed());
}
