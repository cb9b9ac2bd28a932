//! The hashes of the keys of calls and of identifiers.

ghost use Rattle.std.specs.Prelude.{◌≡◌};
ghost use Rattle.s10_core.specs.Id.{IsId};
ghost use Rattle.s10_index.specs.KeyHash.{hash_by, call_hash, id_hash};

use s10_core::{Id, pair_number};
use s10_ranges::HashSeed;
use std::hash::BuildHasher;

// Returns the hash of a number, by the seed.
fn hash_of(seed: &HashSeed, key: u64) -> u32
    ensures { result ≡ hash_by seed.now key }
{
    (seed.hash_one(key) % 4_294_967_296) as u32
}

/// Returns the hash of the key of a call.
pub(crate) fn hash_of_call(seed: &HashSeed, customer: u32, number: u32) -> u32
    ensures { result ≡ call_hash seed.now customer number }
{
    hash_of(
        seed,
        u64::from(customer) * 4_294_967_296 + u64::from(number),
    )
}

/// Returns the hash of an identifier.
pub(crate) fn hash_of_id(seed: &HashSeed, id: &Id) -> u32
    ensures value { result ≡ id_hash seed.now id.now }
    ensures parts { IsId id.now }
{
    let pair = pair_number(id.service, id.country);
    hash_of(
        seed,
        u64::from(pair) * 4_294_967_296 + u64::from(id.serial.value()),
    )
}
