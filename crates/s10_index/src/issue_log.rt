//! The issuances of the calls of a log, in order.

ghost use Rattle.std.specs.Prelude.{◌≡◌, ◌<◌, ◌≤◌, ◌+◌, ◌++◌, ◌∷◌, [], List, OnOk, IfSome, Some, false};
ghost use Rattle.std.specs.Prelude.{All, length};
ghost use Rattle.std.specs.Option.{option_map};
ghost use Rattle.s10_core.specs.Id.{IsId};
ghost use Rattle.s10_wire.specs.declared.body.Body.TheVariants.{Void};
ghost use Rattle.s10_wire.specs.declared.outcome.Outcome.TheVariants.{Voided};
ghost use Rattle.s10_history.specs.declared.entry.Entry.{Entry};
ghost use Rattle.s10_history.specs.declared.issuance.Issuance.{Issuance};
ghost use Rattle.s10_history.specs.Settings.{Terms};
ghost use Rattle.s10_history.specs.Issues.{carried_by, issues_of, is_of, last_issuance_of};
ghost use Rattle.s10_history.specs.Issues.{voided_after};
ghost use Rattle.s10_book.specs.Rules.{IsLegal};
ghost use Rattle.s10_ranges.specs.declared.hash_seed.HashSeed.{HashSeed};
ghost use Rattle.s10_index.specs.CallLog.{issuance_at};
ghost use Rattle.s10_index.specs.LastPlace.{passes_at, last_place};

use crate::blocks::Blocks;
use crate::call_log::CallLog;
use crate::hash_chains::HashChains;
use crate::issue_place::IssuePlace;
use crate::key_hash::hash_of_id;
use crate::last_issuance::LastIssuance;
use s10_core::Id;
use s10_history::{Entry, Issuance};
use s10_ranges::HashSeed;
use s10_wire::{Body, Outcome};
use std::alloc::{AllocError, Global};

/// The issuances of the calls of a log, in order, each as its place in the log. Chains find those of
/// an identifier, from the last one on.
///
/// An issuance takes 20 to 24 bytes.
#[derive(Drop)]
pub(crate) struct IssueLog {
    /// The place of each issuance.
    pub(crate) places: Blocks<IssuePlace>,
    /// The hash of the identifier of each issuance.
    pub(crate) chains: HashChains,
    /// The number of identifiers that were ever issued.
    pub(crate) identifiers: usize,
    ghost chained: { length chains.hashes ≡ length places.items },
    ghost counted: { identifiers ≤ length places.items },
}

impl IssueLog {
    ghost use Rattle.s10_index.specs.IssueLog.{ArePlaces, HoldsIssues, HasVoids, HasIssues};
    ghost use Rattle.s10_index.specs.IssueLog.{HaveIds, HasRoomForIssues};

    /// Creates a log of no issuances.
    pub(crate) fn new(alloc: Global) -> IssueLog
        ensures { (seed : HashSeed) → HasIssues seed result [] }
    {
        IssueLog {
            places: Blocks::new(alloc),
            chains: HashChains::new(alloc),
            identifiers: 0,
        }
    }

    // Returns whether the issuance at the index is one of the identifier.
    fn is_of(&self, calls: &CallLog, place: u32, id: &Id) -> bool
        requires { place < length self.now.places.items }
        ensures { (is : List Issuance) → ArePlaces calls.now.items self.now.places.items is
            → result ≡ passes_at (is_of id.now) is place }
    {
        let at = self.places.at(place as usize);
        match calls.issuance_at(at.call, at.at) {
            None => false,
            Some(issuance) => is_issue_of(&issuance, id),
        }
    }

    // Returns the index of the last issuance of the identifier, from 0, or `None`.
    fn place_of(&self, calls: &CallLog, seed: &HashSeed, id: &Id) -> Option<u32>
        ensures answer { (is : List Issuance)
            → HoldsIssues seed.now self.now calls.now.items is
            → result ≡ last_place (is_of id.now) is (length is) }
        ensures within { IfSome result (λ place. place < length self.now.places.items) }
    {
        let mut found = self.chains.last(hash_of_id(seed, id));
        while let Some(place) = found {
            if self.is_of(calls, place, id) {
                return Some(place);
            }
            found = self.chains.before(place);
        }
        None
    }

    /// Returns the last issuance of the identifier, or `None` if it was never issued.
    pub(crate) fn last(&self, calls: &CallLog, seed: &HashSeed, id: &Id) -> Option<LastIssuance>
        ensures { (is : List Issuance)
            → HoldsIssues seed.now self.now calls.now.items is
            → HasVoids self.now.places.items calls.now.items is
            → result ≡ option_map (λ i. record {
              issuance = i;
              voided = voided_after i.arrival calls.now.items id.now;
            }) (last_issuance_of is id.now) }
    {
        let place = self.place_of(calls, seed, id)?;
        let at = self.places.at(place as usize);
        let issuance = calls.issuance_at(at.call, at.at)?;
        Some(LastIssuance {
            issuance,
            voided: at.voided,
        })
    }

    /// Reserves memory for `count` more issuances. The issuances stay the same.
    ///
    /// # Errors
    ///
    /// `AllocError` if the memory cannot be allocated, or if there would be more than 4,294,967,295
    /// issuances.
    pub(crate) fn reserve(&mut self, count: usize) -> Result<(), AllocError>
        ensures same { (seed : HashSeed) (h : List Entry) → HasIssues seed self.old h
            → HasIssues seed self.new h }
        ensures room { OnOk result (HasRoomForIssues self.new count) }
    {
        self.places.reserve(count)?;
        self.chains.reserve(count)
    }

    /// Records what the last call of the log issued or voided, in memory reserved for all its
    /// issuances.
    pub(crate) fn record_call(&mut self, calls: &CallLog, seed: &HashSeed, call: u32, entry: &Entry)
        requires room { HasRoomForIssues self.old (length (carried_by entry.now.outcome)) }
        ensures issues { (h : List Entry) (t : Terms) → IsLegal h t
            → calls.now.items ≡ h ++ entry.now ∷ [] → call ≡ length h
            → HasIssues seed.now self.old h
            → HasIssues seed.now self.new (h ++ entry.now ∷ []) }
        ensures ids { (h : List Entry) → HaveIds (issues_of h)
            → HaveIds (issues_of (h ++ entry.now ∷ [])) }
    {
        match entry.outcome {
            Outcome::Voided => {
                if let Body::Void { id } = entry.request.body {
                    self.record_void(calls, seed, &id);
                }
            }
            _ => self.record_issues(calls, seed, call, entry),
        }
    }

    // Records each issuance of the last call, in memory reserved for all of them.
    fn record_issues(&mut self, calls: &CallLog, seed: &HashSeed, call: u32, entry: &Entry)
        requires room { HasRoomForIssues self.old (length (carried_by entry.now.outcome)) }
        ensures held { (h : List Entry) → calls.now.items ≡ h ++ entry.now ∷ [] → call ≡ length h
            → HoldsIssues seed.now self.old calls.now.items (issues_of h)
            → HoldsIssues seed.now self.new calls.now.items (issues_of (h ++ entry.now ∷ [])) }
        ensures voids { (h : List Entry) → calls.now.items ≡ h ++ entry.now ∷ [] → call ≡ length h
            → HoldsIssues seed.now self.old calls.now.items (issues_of h)
            → HasVoids self.old.places.items calls.now.items (issues_of h)
            → HasVoids self.new.places.items calls.now.items (issues_of (h ++ entry.now ∷ [])) }
        ensures ids { (h : List Entry) → HaveIds (issues_of h)
            → HaveIds (issues_of (h ++ entry.now ∷ [])) }
    {
        for at in 0..issued_by(entry) {
            // An identifier has no arrival, so 0 will do.
            if let Some(issuance) = entry.issue(0, at as usize) {
                self.record_issue(calls, seed, call, at, &issuance.id);
            }
        }
    }

    // Records an issuance of the last call, in memory reserved for one more.
    fn record_issue(&mut self, calls: &CallLog, seed: &HashSeed, call: u32, at: u8, id: &Id)
        requires room { HasRoomForIssues self.old 1 }
        ensures held { (is : List Issuance) (i : Issuance) → i.id ≡ id.now
            → issuance_at calls.now.items call at ≡ Some i
            → HoldsIssues seed.now self.old calls.now.items is
            → HoldsIssues seed.now self.new calls.now.items (is ++ i ∷ []) }
        ensures voids { (is : List Issuance) (i : Issuance) → i.id ≡ id.now
            → voided_after i.arrival calls.now.items i.id ≡ false
            → HoldsIssues seed.now self.old calls.now.items is
            → HasVoids self.old.places.items calls.now.items is
            → HasVoids self.new.places.items calls.now.items (is ++ i ∷ []) }
        ensures places_room { self.old.places.room ≤ self.new.places.room + 1 }
        ensures chains_room { self.old.chains.room ≤ self.new.chains.room + 1 }
        ensures parts { IsId id.now }
    {
        let first = self.place_of(calls, seed, id).is_none();
        self.places.push_reserved(IssuePlace {
            call,
            at,
            voided: false,
        });
        self.chains.push_reserved(hash_of_id(seed, id));
        // Brings the number of issuances < 2^64 into scope.
        let _len = self.places.len();
        if first {
            self.identifiers += 1;
        }
    }

    // Records that the last call of the log voided the identifier.
    fn record_void(&mut self, calls: &CallLog, seed: &HashSeed, id: &Id)
        ensures held { (is : List Issuance) → HoldsIssues seed.now self.old calls.now.items is
            → HoldsIssues seed.now self.new calls.now.items is }
        ensures voids { (h : List Entry) (e : Entry) (is : List Issuance)
            → calls.now.items ≡ h ++ e ∷ [] → e.request.body ≡ Void id.now → e.outcome ≡ Voided
            → All (λ i. i.arrival ≤ length h) is
            → HoldsIssues seed.now self.old calls.now.items is
            → HasVoids self.old.places.items h is → HasVoids self.new.places.items calls.now.items is }
    {
        if let Some(place) = self.place_of(calls, seed, id) {
            let mut last = self.places.at(place as usize);
            last.voided = true;
            self.places.set(place as usize, last);
        }
    }
}

// Returns whether the issuance is one of the identifier.
fn is_issue_of(issuance: &Issuance, id: &Id) -> bool
    ensures { result ≡ is_of id.now issuance.now }
{
    issuance.id == *id
}

// Returns the number of issuances of the call, 0 to 16.
fn issued_by(entry: &Entry) -> u8
    ensures { result ≡ length (carried_by entry.now.outcome) }
{
    match entry.outcome {
        Outcome::Drawn { .. } => 1,
        Outcome::DrawnMany { ids, .. } => ids.len() as u8,
        _ => 0,
    }
}
