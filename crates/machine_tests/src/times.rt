//! The times of the machines: T1 is what a test asks for, T2 is 4000, T4 is 5000, and the tolerance is 50.

use sip_machine::Params;
use std::test::Fail;

/// The times of the tests with this T1.
pub(crate) fn params(t1: u64) -> Result<Params, Fail> {
    match Params::new(t1, 4_000, 5_000, 50) {
        Some(params) => Ok(params),
        None => Err("refused".into()),
    }
}
