//! The seed of the hashes in memory.

ghost use Rattle.std.specs.Prelude.{◌≡◌};
ghost use Rattle.std.specs.RandomState.{initial_hasher};
ghost use Rattle.std.specs.Hash.DefaultHasher as sip;

use std::hash::{BuildHasher, DefaultHasher, RandomState};

/// The seed with which sets and maps hash their keys.
///
/// Who knows it can choose keys that make them slow. No answer depends on it.
#[derive(Clone, Copy)]
pub struct HashSeed {
    /// The state with which each hash begins.
    start: DefaultHasher,
}

impl HashSeed {
    /// Returns the seed that is always the same, for replays and tests.
    pub fn fixed() -> HashSeed
        ensures { result.start ≡ sip.initial }
    {
        HashSeed {
            start: DefaultHasher::new(),
        }
    }

    /// Returns the seed with these keys, drawn at random.
    pub fn drawn(keys: RandomState) -> HashSeed
        ensures { result.start ≡ initial_hasher keys }
    {
        HashSeed {
            start: keys.build_hasher(),
        }
    }
}

impl BuildHasher for HashSeed {
    type Hasher = DefaultHasher;

    ghost build_hasher = { λ seed. seed.start };

    fn build_hasher(&self) -> DefaultHasher {
        self.start
    }
}
