//! The calls of a log, found by their keys.

ghost use Rattle.std.specs.Prelude.{◌≡◌, ◌<◌, ◌++◌, ◌∷◌, [], List, None, IfSome, Contains, length};
ghost use Rattle.s10_history.specs.declared.entry.Entry.{Entry};
ghost use Rattle.s10_history.specs.History.{has_key, find_entry};
ghost use Rattle.s10_index.specs.LastPlace.{last_place};
ghost use Rattle.s10_index.specs.Positions.{HasPositions};

use crate::call_log::CallLog;
use crate::hash_chains::HashChains;
use crate::key_hash::hash_of_call;
use s10_history::Entry;
use s10_ranges::HashSeed;

// Returns the call with that key, or `None`.
pub(crate) fn find_in(
    calls: &CallLog,
    positions: &HashChains,
    seed: &HashSeed,
    customer: u32,
    number: u32,
) -> Option<Entry>
    ensures answer { HasPositions seed.now positions.now calls.now.items
        → result ≡ find_entry calls.now.items customer number }
    ensures among { IfSome result (Contains calls.now.items) }
{
    let place = position_of(calls, positions, seed, customer, number)?;
    calls.get(place as usize)
}

// Returns the index of the last call with that key, from 0, or `None`.
fn position_of(
    calls: &CallLog,
    positions: &HashChains,
    seed: &HashSeed,
    customer: u32,
    number: u32,
) -> Option<u32>
    ensures { HasPositions seed.now positions.now calls.now.items
        → result ≡ last_place (has_key customer number) calls.now.items (length calls.now.items) }
{
    let mut found = positions.last(hash_of_call(seed, customer, number));
    while let Some(place) = found {
        if calls.has_key_at(place as usize, customer, number) {
            return Some(place);
        }
        found = positions.before(place);
    }
    None
}

// Records the next call, in reserved memory. Its key is new.
pub(crate) fn record_position(positions: &mut HashChains, seed: &HashSeed, entry: &Entry)
    requires { 0 < positions.old.room }
    ensures { (h : List Entry) → HasPositions seed.now positions.old h
        → find_entry h entry.now.request.customer entry.now.request.number ≡ None
        → HasPositions seed.now positions.new (h ++ entry.now ∷ []) }
{
    let request = entry.request;
    positions.push_reserved(hash_of_call(seed, request.customer, request.number));
}
