//! How long those timers run that several transactions have (RFC 3261 table 4, RFC 6026).
ghost use Rattle.std.specs.Prelude.{◌≡◌, ◌≤◌, ◌*◌, if◌then◌else◌};

use sip_times::Params;

/// 64*T1: how long timers B, F, H, L and M run, and how long a client waits for a final response after a CANCEL. T1 is at most 10,000 ms.
pub(crate) fn timeout(params: &Params) -> u64
    ensures value { result ≡ 64 * params.now.t1 }
    ensures small { result ≤ 640000 }
{
    64 * params.t1()
}

/// T4, and 0 over a reliable transport: how long timers I and K run, while which a message may still come again. T4 is at most 60,000 ms.
pub(crate) fn linger(params: &Params, reliable: bool) -> u64
    ensures value { result ≡ (if reliable then 0 else params.now.t4) }
    ensures small { result ≤ 60000 }
{
    if reliable { 0 } else { params.t4() }
}
