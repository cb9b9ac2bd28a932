//! Which elements of a list have a given hash.

ghost use Rattle.std.specs.Prelude.{◌≡◌, ℕ, ◌+◌, ◌%◌, ◌<◌, ◌≤◌, ◌==◌, ◌++◌, ◌∷◌, [], OnOk, length};
ghost use Rattle.std.specs.Prelude.{◌*◌, min, max, slice_index};
ghost use Rattle.s10_index.specs.LastPlace.{last_place};
ghost use Rattle.s10_index.specs.HashChains.{AreEarlier, AreHeads, in_bucket, link_to};

use crate::blocks::Blocks;
use std::alloc::{AllocError, Global};
use std::marker::Model;

// The greatest number of elements, and of buckets: an index and one more fit 32 bits.
const MAX_ELEMENTS: usize = 4_294_967_295;

/// The hashes of the elements of a list, chained by buckets: finds the elements with a given hash,
/// from the last one to the first.
///
/// An element takes 12 to 16 bytes. There are at least as many buckets as elements, and at most
/// twice as many.
#[derive(Drop)]
pub(crate) struct HashChains {
    /// The hash of each element.
    hashes: Blocks<u32>,
    /// For each element one more than the index of the one before it in its bucket, or 0.
    earlier: Blocks<u32>,
    /// For each bucket one more than the index of its last element, or 0.
    heads: Vec<u32>,
}

impl Model for HashChains {
    ghost use Rattle.std.specs.Prelude.{◌-◌, min, length};
    ghost use Rattle.s10_index.specs.HashChains.{HashList, AreLinked};

    ghost Value = { HashList };

    ghost view = { λ chains. record {
      hashes = chains.hashes.items;
      room = min (length chains.heads.items - length chains.hashes.items)
          (min chains.hashes.room chains.earlier.room);
    } };

    ghost invariant = { λ chains. AreLinked chains.hashes.items chains.earlier.items
        chains.heads.items };
}

impl HashChains {
    ghost use Rattle.s10_index.specs.HashChains.{HashList};

    /// Creates chains of no elements.
    pub(crate) fn new(alloc: Global) -> HashChains
        ensures { result.hashes ≡ [] }
    {
        HashChains {
            hashes: Blocks::new(alloc),
            earlier: Blocks::new(alloc),
            heads: Vec::new(alloc),
        }
    }

    /// Returns the index of the last element with the hash, or `None`.
    pub(crate) fn last(&self, hash: u32) -> Option<u32>
        ensures { result ≡ last_place (λ other. other == hash) self.now.hashes
            (length self.now.hashes) }
    {
        if self.heads.len() == 0 {
            return None;
        }
        let bucket = bucket_of(hash, self.heads.len());
        find_hash(&self.hashes, &self.earlier, hash, self.heads[bucket])
    }

    /// Returns the index of the last element before that index with the same hash, or `None`.
    pub(crate) fn before(&self, place: u32) -> Option<u32>
        requires { place < length self.now.hashes }
        ensures { result ≡ last_place (λ other. other == slice_index self.now.hashes place)
            self.now.hashes place }
    {
        let hash = self.hashes.at(place as usize);
        find_hash(
            &self.hashes,
            &self.earlier,
            hash,
            self.earlier.at(place as usize),
        )
    }

    /// Reserves memory for `count` more elements. The elements stay the same.
    ///
    /// # Errors
    ///
    /// `AllocError` if the memory cannot be allocated, or if there would be more than
    /// 4,294,967,295 elements.
    pub(crate) fn reserve(&mut self, count: usize) -> Result<(), AllocError>
        ensures hashes { self.new.hashes ≡ self.old.hashes }
        ensures room { OnOk result (count ≤ self.new.room) }
    {
        self.hashes.reserve(count)?;
        self.earlier.reserve(count)?;
        let needed = self.hashes.len().saturating_add(count);
        if needed > MAX_ELEMENTS {
            return Err(AllocError);
        }
        if needed > self.heads.len() {
            let buckets = more_buckets(self.heads.len(), needed);
            self.heads.resize(buckets, 0)?;
            link_all(&self.hashes, &mut self.earlier, &mut self.heads);
        }
        Ok(())
    }

    /// Appends an element with the hash, in reserved memory.
    pub(crate) fn push_reserved(&mut self, hash: u32)
        requires { 0 < self.old.room }
        ensures hashes { self.new.hashes ≡ self.old.hashes ++ hash ∷ [] }
        ensures room { self.old.room ≤ self.new.room + 1 }
    {
        let bucket = bucket_of(hash, self.heads.len());
        let place = self.hashes.len() as u32;
        self.earlier.push_reserved(self.heads[bucket]);
        self.hashes.push_reserved(hash);
        self.heads[bucket] = place + 1;
    }
}

// Returns the bucket of the hash.
fn bucket_of(hash: u32, buckets: usize) -> usize
    requires { 0 < buckets }
    ensures { result ≡ hash % buckets }
{
    hash as usize % buckets
}

// Returns the next number of buckets: twice as many, and at least `needed`.
fn more_buckets(buckets: usize, needed: usize) -> usize
    requires { needed ≤ 4294967295 }
    ensures enough { needed ≤ result }
    ensures limit { result ≤ 4294967295 }
    ensures doubled { min (2 * buckets) 4294967295 ≤ result }
    ensures least { result ≤ max needed (2 * buckets) }
{
    buckets.saturating_mul(2).min(MAX_ELEMENTS).max(needed)
}

// Returns the index of the last element with the hash, from a stored index on, or `None`.
fn find_hash(hashes: &Blocks<u32>, earlier: &Blocks<u32>, hash: u32, from: u32) -> Option<u32>
    requires lengths { length earlier.now.items ≡ length hashes.now.items }
    requires from { from ≤ length hashes.now.items }
    requires earlier { (i : ℕ) → i < length earlier.now.items
        → slice_index earlier.now.items i ≤ i }
    ensures { (buckets n : ℕ) → AreEarlier hashes.now.items earlier.now.items buckets
        (length hashes.now.items)
        → from ≡ link_to (last_place (in_bucket buckets (hash % buckets)) hashes.now.items n)
        → result ≡ last_place (λ other. other == hash) hashes.now.items n }
{
    let mut next = from;
    while next > 0 {
        let place = next - 1;
        if hashes.at(place as usize) == hash {
            return Some(place);
        }
        next = earlier.at(place as usize);
    }
    None
}

// Links all elements over these buckets.
fn link_all(hashes: &Blocks<u32>, earlier: &mut Blocks<u32>, heads: &mut [u32])
    requires lengths { length earlier.old.items ≡ length hashes.now.items }
    requires some { 0 < length heads.old }
    requires limit { length hashes.now.items ≤ 4294967295 }
    ensures lengths { length earlier.new.items ≡ length hashes.now.items }
    ensures room { earlier.new.room ≡ earlier.old.room }
    ensures buckets { length heads.new ≡ length heads.old }
    ensures earlier { AreEarlier hashes.now.items earlier.new.items (length heads.old)
        (length hashes.now.items) }
    ensures heads { AreHeads hashes.now.items heads.new (length hashes.now.items) }
{
    heads.fill(0);
    for place in 0..hashes.len() {
        let bucket = bucket_of(hashes.at(place), heads.len());
        earlier.set(place, heads[bucket]);
        heads[bucket] = place as u32 + 1;
    }
}
