//! Seeds of hashes.

use s10_ranges::HashSeed;
use s10_test_help::expect::same;
use std::hash::{BuildHasher, RandomState};
use std::io;
use std::random::RandomSource;

/// A source that gives one byte again and again.
#[derive(Clone, Copy)]
struct Repeating {
    byte: u8,
}

impl RandomSource for Repeating {
    fn fill_bytes(&self, buf: &mut [u8]) -> io::Result<()> {
        buf.fill(self.byte);
        Ok(())
    }
}

/// Returns the hash of the number 7 with a seed whose keys are of this byte.
fn hash_of_seven(byte: u8) -> Option<u64> {
    let keys = RandomState::new(&Repeating { byte }).ok()?;
    Some(HashSeed::drawn(keys).hash_one(7u32))
}

#[test]
fn a_drawn_seed_hashes_by_its_keys(rt: HostRuntime) {
    let fixed = Some(HashSeed::fixed().hash_one(7u32));
    assert!(rt; same(&rt, &"keys of zeros", &hash_of_seven(0), &fixed));
    assert!(rt; same(&rt, &"the same keys", &hash_of_seven(5), &hash_of_seven(5)));
    assert!(rt; hash_of_seven(5) != fixed);
    assert!(rt; hash_of_seven(5) != hash_of_seven(6));
}
