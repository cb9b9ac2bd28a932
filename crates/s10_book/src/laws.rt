//! Laws of every legal history.

ghost use Rattle.std.specs.Prelude.{◌≡◌, ◌≢◌, ℕ, ◌+◌, ◌≤◌, List, [], ◌∷◌, ◌++◌, length, map, take};
ghost use Rattle.std.specs.Prelude.{slice_get, fold, Some, All, AllPairs, Contains, IsTrue};
ghost use Rattle.s10_history.specs.declared.entry.Entry.{Entry};
ghost use Rattle.s10_history.specs.Settings.{Terms};
ghost use Rattle.s10_core.specs.declared.id.Id.{Id};
ghost use Rattle.s10_history.specs.declared.range.Range.{Range};
ghost use Rattle.s10_history.specs.declared.candidate.Candidate.{Candidate};
ghost use Rattle.s10_history.specs.History.{day_of, lies_in, ranges_of, range_of_grant, is_closed};
ghost use Rattle.s10_history.specs.History.{overlaps};
ghost use Rattle.s10_history.specs.Issues.{issues_of, carried_by, is_free, pick_of, serial_after};
ghost use Rattle.s10_history.specs.Issues.{serial_after_steps, pick_after, id_at, last_issue_of};
ghost use Rattle.s10_history.specs.Issues.{candidate_after_of};
ghost use Rattle.s10_book.specs.Rules.{IsLegal, MayFollow, has_free_pick, grant_answer};
ghost use Rattle.s10_book.specs.Rules.{draw_answer, draw_done, draw_many_answer, void_answer};
ghost use Rattle.s10_book.specs.Rules.{query_answer, NothingFree, FewFree};
ghost use Rattle.s10_book.specs.Promises.{IsSpaced, IsOwn, IsApart, IsInCommon, request_on_day};
ghost use Rattle.s10_book.specs.Promises.{without_number};

use s10_wire::{Body, Outcome};

/// States the promises on every legal history: spaced, own and apart.
///
/// No identifier goes to two requests within the interval. Each is issued from a range that its
/// customer holds by an earlier call. None lies in two ranges. Each outcome follows from the calls
/// before it: the requests with their days determine the whole history.
pub fn legal_histories()
    ensures spaced { (h : List Entry) (t : Terms) → IsLegal h t → IsSpaced h t.interval }
    ensures own { (h : List Entry) (t : Terms) → IsLegal h t → IsOwn h }
    ensures apart { (h : List Entry) (t : Terms) → IsLegal h t → IsApart h }
    ensures determined { (g h : List Entry) (t : Terms) → IsLegal g t → IsLegal h t
        → map request_on_day g ≡ map request_on_day h → g ≡ h }
{}

/// States that a range that is not empty overlaps a span if and only if they have an identifier in
/// common.
pub fn overlaps_are_common_serials()
    ensures common { (r : Range) (service country : ℕ × ℕ) (first last : ℕ) → r.first ≤ r.last
        → IsTrue (overlaps service country first last r)
        → (x : Id) × IsInCommon r service country first last x }
    ensures overlaps { (r : Range) (service country : ℕ × ℕ) (first last : ℕ) (x : Id)
        → IsInCommon r service country first last x
        → IsTrue (overlaps service country first last r) }
{}

/// States that in a legal history the pick of a range is free on a day if any of its serials is.
///
/// Hence a Draw gets `NoneFree` only if no serial of the sender's open ranges of that service and
/// country is free. The day is not before the history's.
pub fn free_picks()
    ensures pick { (h : List Entry) (t : Terms) → IsLegal h t → (r : Range) (x : Id) (day : ℕ)
        → day_of h ≤ day
        → IsTrue (lies_in r x) → IsTrue (is_free (issues_of h) x day t.interval)
        → IsTrue (has_free_pick (issues_of h) day t.interval r) }
    ensures none_free { (h : List Entry) (t : Terms) → IsLegal h t
        → (customer : ℕ) (service country : ℕ × ℕ) (day : ℕ) → day_of h ≤ day
        → draw_answer h customer service country day t.interval ≡ Outcome.NoneFree
        → NothingFree h customer service country day t.interval }
{}

/// States that in a legal history a DrawMany gets `NoneFree` only if fewer serials are free than it
/// asks for.
///
/// The serials are those of the sender's open ranges of that service and country. The day is not
/// before the history's.
pub fn few_free()
    ensures { (h : List Entry) (t : Terms) → IsLegal h t → 1 ≤ t.interval
        → (customer : ℕ) (service country : ℕ × ℕ) (count day : ℕ) → day_of h ≤ day
        → draw_many_answer h customer service country count day t.interval ≡ Outcome.NoneFree
        → FewFree h customer service country count day t.interval }
{}

/// States that a sheet has the identifiers of as many single Draws, one after another on its day.
///
/// - Let a legal history end with Done Draws of one customer, service, country and day. One
///   DrawMany of their number, in their stead, has the same identifiers.
/// - Each identifier of a Done DrawMany is the one that a single Draw would issue after Draws of
///   those before it.
pub fn sheets_are_successive_draws()
    ensures drawn { (h es : List Entry) (t : Terms) (customer : ℕ) (service country : ℕ × ℕ)
        (day : ℕ) (ids : List Id) → IsLegal (h ++ es) t → 1 ≤ length es
        → map without_number es ≡ map (draw_done customer service country day) ids
        → draw_many_answer h customer service country (length es) day t.interval ≡ Outcome.DrawnMany
        day ids }
    ensures each { (h : List Entry) (customer : ℕ) (service country : ℕ × ℕ)
        (count day interval : ℕ) (ids : List Id)
        → draw_many_answer h customer service country count day interval ≡ Outcome.DrawnMany day ids
        → (k : ℕ) (x : Id) → slice_get ids k ≡ Some x
        → draw_answer (h ++ map (draw_done customer service country day) (take k ids)) customer
        service country day interval ≡ Outcome.Drawn day x }
{}

/// States that in a legal history no identifier occurs twice in the reply to a DrawMany.
pub fn never_twice()
    ensures { (h : List Entry) (t : Terms) (e : Entry) → IsLegal h t → 1 ≤ t.interval
        → MayFollow h t e → (day : ℕ) (ids : List Id)
        → e.outcome ≡ Outcome.DrawnMany day ids → AllPairs (λ x y. x ≢ y) ids }
{}

/// States that a withdrawn range stays closed, and that no identifier of it is issued after its
/// withdrawal.
///
/// A withdrawal changes no outcome of a Grant, a Void or a Query. The serials of the range stay
/// taken, and its issued identifiers can still be voided and queried.
pub fn withdrawn_ranges()
    ensures closed { (h : List Entry) (e : Entry) (num : ℕ) → IsTrue (is_closed h num)
        → IsTrue (is_closed (h ++ e ∷ []) num) }
    ensures none_issued { (h : List Entry) (t : Terms) (e : Entry) → IsLegal h t → MayFollow h t e
        → (r : Range) → Contains (ranges_of h) r → IsTrue (is_closed h r.num)
        → All (λ c. ¬ (IsTrue (lies_in r c.1))) (carried_by e.outcome) }
    ensures grants { (h : List Entry) (e : Entry) (num : ℕ) → e.request.body ≡ Body.Withdraw num
        → e.outcome ≡ Outcome.Withdrawn → (customer holder : ℕ) (service country : ℕ × ℕ)
        (first last : ℕ)
        → grant_answer (h ++ e ∷ []) customer holder service country first last
        ≡ grant_answer h customer holder service country first last }
    ensures voids { (h : List Entry) (e : Entry) (num : ℕ) → e.request.body ≡ Body.Withdraw num
        → e.outcome ≡ Outcome.Withdrawn → (customer : ℕ) (x : Id)
        → void_answer (h ++ e ∷ []) customer x ≡ void_answer h customer x }
    ensures queries { (h : List Entry) (e : Entry) (num : ℕ) → e.request.body ≡ Body.Withdraw num
        → e.outcome ≡ Outcome.Withdrawn → (customer : ℕ) (x : Id)
        → query_answer (h ++ e ∷ []) customer x ≡ query_answer h customer x }
{}

/// States the pick of a range in a legal history, by the last call.
///
/// - A Done Grant that creates the range: its first serial.
/// - A Done Draw from the range: the next serial, wrapping from last to first.
/// - A Done DrawMany: the same as after its single Draws, one after another.
/// - A call that issues no identifier of the range: unchanged.
pub fn successive_picks()
    ensures made { (h : List Entry) (t : Terms) (e : Entry) → IsLegal h t → MayFollow h t e
        → (r : Range)
        → range_of_grant (length (ranges_of h) + 1) e.request.body e.outcome ≡ Some r
        → pick_of (issues_of (h ++ e ∷ [])) r ≡ r.first }
    ensures turned { (h : List Entry) (t : Terms) (e : Entry) → IsLegal h t → MayFollow h t e
        → (r : Range) → Contains (ranges_of h) r
        → pick_of (issues_of (h ++ e ∷ [])) r ≡ fold (λ pick c. pick_after r pick c.1)
        (pick_of (issues_of h) r) (carried_by e.outcome) }
    ensures drawn { (h : List Entry) (t : Terms) (e : Entry) → IsLegal h t → MayFollow h t e
        → (r : Range) → Contains (ranges_of h) r
        → (day : ℕ) (x : Id) → e.outcome ≡ Outcome.Drawn day x → IsTrue (lies_in r x)
        → pick_of (issues_of (h ++ e ∷ [])) r ≡ serial_after r x.serial }
    ensures drawn_many { (h : List Entry) (e : Entry) (customer : ℕ) (service country : ℕ × ℕ)
        (day : ℕ) (ids : List Id) → e.outcome ≡ Outcome.DrawnMany day ids
        → (r : Range) → pick_of (issues_of (h ++ e ∷ [])) r
        ≡ pick_of (issues_of (h ++ map (draw_done customer service country day) ids)) r }
    ensures left { (h : List Entry) (t : Terms) (e : Entry) → IsLegal h t → MayFollow h t e
        → (r : Range) → Contains (ranges_of h) r
        → All (λ c. ¬ (IsTrue (lies_in r c.1))) (carried_by e.outcome)
        → pick_of (issues_of (h ++ e ∷ [])) r ≡ pick_of (issues_of h) r }
{}

/// States that in a legal history the candidate of a range after n further picks is the serial n
/// steps after its pick.
pub fn successive_candidates()
    ensures { (h : List Entry) (t : Terms) (r : Range) (issued : ℕ) → IsLegal h t
        → Contains (ranges_of h) r
        → let serial = serial_after_steps r (pick_of (issues_of h) r) issued in
        let later : Candidate =
        record { serial = serial; issue = last_issue_of h (id_at r serial) } in
        candidate_after_of h r issued ≡ later }
{}
