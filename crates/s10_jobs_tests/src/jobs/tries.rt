//! The number of tries of a call.

use s10_jobs::Tries;
use s10_test_help::expect::holds;

/// Returns the number of tries that this value gives, if any.
fn counted(count: u32) -> Option<u32> {
    let tries = Tries::new(count)?;
    Some(tries.count())
}

/// Values, and the number of tries that each gives, if any.
const TRIES: &[(u32, Option<u32>)] = &[(0, None), (1, Some(1)), (100, Some(100)), (101, None)];

#[test]
fn tries_are_1_to_100(rt: HostRuntime) {
    for (count, want) in TRIES {
        assert!(rt; holds(&rt, count, counted(*count) == *want));
    }
}
