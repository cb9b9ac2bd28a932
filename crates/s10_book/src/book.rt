use crate::book_fault::BookFault;
use s10_core::Id;
use s10_history::{Candidate, Entry, HolderKey, Issue, Range, SerialSpan, Settings, Usage};

/// Kept calls in order of arrival, with the reads that the rules need.
///
/// A book may depend on a store that can fail, for example a disk. It is honest while the store
/// works as promised.
///
/// - What a clause says of the history, the settings and a returned value holds if the book is
///   honest as the call ends.
/// - A requirement on the history applies only if the book is honest as the call begins.
/// - What a clause says of the fault counts holds for every book. A call that returns `Memory`
///   counts one fault of memory, a call that returns `Store` one of the store, and any other call
///   none. A count stays at the greatest u64.
/// - No call returns `Full`.
/// - A call that fails leaves the history and the settings of an honest book unchanged.
/// - A call that succeeds over a clean store ends with an honest book.
/// - What a stop leaves holds for every book whose store is clean as the call ends.
pub trait Book {
    ghost use Rattle.s10_history.specs.declared.entry.Entry.{Entry};
    ghost use Rattle.s10_book.specs.declared.faults.Faults.{Faults};
    ghost use Rattle.s10_history.specs.Settings.{Terms};
    ghost use Rattle.s10_history.specs.declared.settings.TheConstants.{MAX_LIMIT};
    ghost use Rattle.s10_wire.specs.Kind.{fits};
    ghost use Rattle.s10_history.specs.History.{find_entry, entry_at, day_of, ranges_of, is_closed};
    ghost use Rattle.s10_history.specs.History.{is_open_after, overlaps};
    ghost use Rattle.s10_history.specs.Issues.{last_issue_of, candidate_of, candidate_after_of};
    ghost use Rattle.s10_history.specs.Issues.{size_of};
    ghost use Rattle.s10_history.specs.Usage.{usage_of};
    ghost use Rattle.s10_book.specs.Rules.{MayFollow, IsLegal, is_free_after};
    ghost use Rattle.s10_book.specs.BookFault.{CountsResult};
    ghost use Rattle.s10_book.specs.Book.{Grows, FindsAfter, IsPerhapsWith, Unchanged};
    ghost use Rattle.std.specs.Prelude.{◌≡◌, ℕ, ◌++◌, ◌∷◌, [], ◌<◌, ◌≤◌, ◌==◌, List, length, find};
    ghost use Rattle.std.specs.Prelude.{IfOk, IfSome, IsTrue, OnErr, OnOk, Contains, slice_get};
    ghost use Rattle.std.specs.Prelude.{Option, Some};

    /// The kept calls.
    ghost history: { Self → List Entry };

    /// The committed calls. They survive the process, and come first in the history.
    ghost committed: { Self → List Entry };

    /// Whether a `keep` that returns `Ok` has committed its call and all calls before it.
    ghost durable: { Type 0 };

    /// The settings.
    ghost terms: { Self → Terms };

    /// The number of faults so far, of each kind.
    ghost faults: { Self → Faults };

    /// Whether the store beneath the book works as promised.
    ghost honest: { Self → Type 0 };

    /// Whether the store has returned what was written to it so far. The store of a clean book that
    /// is not honest has failed.
    ghost clean: { Self → Type 0 };

    /// What an opening may find if the process stops now: `Some` of the calls, or `None` if it
    /// finds no book.
    ghost may_find: { Self → Option (List Entry) → Type 0 };

    /// Returns the settings with which the book was created.
    fn settings(&self) -> Settings
        ensures { honest self.now → result ≡ terms self.now };

    /// Returns the number of kept calls, at most `MAX_LIMIT`.
    fn len(&self) -> u32
        ensures answer { honest self.now → result ≡ length (history self.now) }
        ensures few { result ≤ MAX_LIMIT };

    /// Returns the day of the last kept call, or 0 if there is none.
    fn day(&self) -> u32
        ensures { honest self.now → result ≡ day_of (history self.now) };

    /// Returns the kept call with this key, if there is one.
    ///
    /// # Errors
    ///
    /// - `Memory` if memory is refused.
    /// - `Store` if the store fails.
    fn find(&mut self, customer: u32, number: u32) -> Result<Option<Entry>, BookFault>
        ensures faults { CountsResult result (faults self.old) (faults self.new) }
        ensures unchanged { Unchanged history committed terms honest clean may_find self.old
            self.new }
        ensures opened { clean self.new → OnOk result (honest self.new) }
        ensures answer { honest self.new
            → IfOk result (λ e. e ≡ find_entry (history self.old) customer number) }

        // The outcome of a returned entry fits its request, even if the store fails.
        ensures fits { IfOk result
            (λ found. IfSome found (λ e. IsTrue (fits e.request.body e.outcome))) };

    /// Returns kept call number `at`, from 1, if there is one.
    ///
    /// # Errors
    ///
    /// - `Memory` if memory is refused.
    /// - `Store` if the store fails.
    fn entry(&mut self, at: u32) -> Result<Option<Entry>, BookFault>
        ensures faults { CountsResult result (faults self.old) (faults self.new) }
        ensures unchanged { Unchanged history committed terms honest clean may_find self.old
            self.new }
        ensures opened { clean self.new → OnOk result (honest self.new) }
        ensures answer { honest self.new → IfOk result (λ e. e ≡ entry_at (history self.old) at) };

    /// Returns the range with this number, from 1, if there is one.
    ///
    /// # Errors
    ///
    /// - `Memory` if memory is refused.
    /// - `Store` if the store fails.
    fn range(&mut self, num: u32) -> Result<Option<Range>, BookFault>
        ensures faults { CountsResult result (faults self.old) (faults self.new) }
        ensures unchanged { Unchanged history committed terms honest clean may_find self.old
            self.new }
        ensures opened { clean self.new → OnOk result (honest self.new) }
        ensures answer { honest self.new
            → IfOk result (λ r. r ≡ find (λ x. x.num == num) (ranges_of (history self.old))) };

    /// Returns whether the range with this number is closed; false if there is no such range.
    ///
    /// # Errors
    ///
    /// - `Memory` if memory is refused.
    /// - `Store` if the store fails.
    fn closed(&mut self, num: u32) -> Result<bool, BookFault>
        ensures faults { CountsResult result (faults self.old) (faults self.new) }
        ensures unchanged { Unchanged history committed terms honest clean may_find self.old
            self.new }
        ensures opened { clean self.new → OnOk result (honest self.new) }
        ensures answer { honest self.new
            → IfOk result (λ b. b ≡ is_closed (history self.old) num) };

    /// Returns the open range of a holder key with the least number above `after`, if there is one.
    ///
    /// # Errors
    ///
    /// - `Memory` if memory is refused.
    /// - `Store` if the store fails.
    fn next_range(&mut self, held: &HolderKey, after: u32) -> Result<Option<Range>, BookFault>
        ensures faults { CountsResult result (faults self.old) (faults self.new) }
        ensures unchanged { Unchanged history committed terms honest clean may_find self.old
            self.new }
        ensures opened { clean self.new → OnOk result (honest self.new) }
        ensures above { IfOk result (λ found. IfSome found (λ r. after < r.num)) }
        ensures answer { honest self.new
            → IfOk result (λ found. found
            ≡ find (is_open_after (history self.old) after held.now.holder held.now.service
            held.now.country) (ranges_of (history self.old))) };

    /// Returns the open range of a holder key with the least number above `after` whose pick is free
    /// on `day`, if there is one.
    ///
    /// # Errors
    ///
    /// - `Memory` if memory is refused.
    /// - `Store` if the store fails.
    fn next_free_range(
        &mut self,
        held: &HolderKey,
        after: u32,
        day: u32,
    ) -> Result<Option<Range>, BookFault>
        ensures faults { CountsResult result (faults self.old) (faults self.new) }
        ensures unchanged { Unchanged history committed terms honest clean may_find self.old
            self.new }
        ensures opened { clean self.new → OnOk result (honest self.new) }
        ensures answer { honest self.new
            → IfOk result (λ found. found
            ≡ find (is_free_after (history self.old) after held.now.holder held.now.service
            held.now.country day (terms self.old).interval) (ranges_of (history self.old))) };

    /// Returns the range with the least number that has a serial of the span, if there is one.
    ///
    /// # Errors
    ///
    /// - `Memory` if memory is refused.
    /// - `Store` if the store fails.
    fn covering(&mut self, span: &SerialSpan) -> Result<Option<Range>, BookFault>
        ensures faults { CountsResult result (faults self.old) (faults self.new) }
        ensures unchanged { Unchanged history committed terms honest clean may_find self.old
            self.new }
        ensures opened { clean self.new → OnOk result (honest self.new) }
        ensures answer { honest self.new
            → IfOk result (λ found. found
            ≡ find (overlaps span.now.service span.now.country span.now.first span.now.last)
            (ranges_of (history self.old))) };

    /// Returns the last issue of an identifier, if it was ever issued.
    ///
    /// # Errors
    ///
    /// - `Memory` if memory is refused.
    /// - `Store` if the store fails.
    fn last_issue(&mut self, id: &Id) -> Result<Option<Issue>, BookFault>
        ensures faults { CountsResult result (faults self.old) (faults self.new) }
        ensures unchanged { Unchanged history committed terms honest clean may_find self.old
            self.new }
        ensures opened { clean self.new → OnOk result (honest self.new) }
        ensures answer { honest self.new
            → IfOk result (λ i. i ≡ last_issue_of (history self.old) id.now) };

    /// Returns the candidate of one of the book's ranges: the serial that it gives next, with its
    /// last issue.
    ///
    /// # Errors
    ///
    /// - `Memory` if memory is refused.
    /// - `Store` if the store fails.
    fn candidate(&mut self, range: &Range) -> Result<Candidate, BookFault>
        requires { honest self.old → Contains (ranges_of (history self.old)) range.now }
        ensures faults { CountsResult result (faults self.old) (faults self.new) }
        ensures unchanged { Unchanged history committed terms honest clean may_find self.old
            self.new }
        ensures opened { clean self.new → OnOk result (honest self.new) }
        ensures answer { honest self.new
            → IfOk result (λ c. c ≡ candidate_of (history self.old) range.now) };

    /// Returns the candidate of one of the book's ranges after `issued` further picks of it.
    ///
    /// `issued` must be less than the number of its serials. The last issue is that of the history,
    /// without those picks.
    ///
    /// # Errors
    ///
    /// - `Memory` if memory is refused.
    /// - `Store` if the store fails.
    fn candidate_after(&mut self, range: &Range, issued: u8) -> Result<Candidate, BookFault>
        requires there { honest self.old → Contains (ranges_of (history self.old)) range.now }
        requires fewer { issued < size_of range.now }
        ensures faults { CountsResult result (faults self.old) (faults self.new) }
        ensures unchanged { Unchanged history committed terms honest clean may_find self.old
            self.new }
        ensures opened { clean self.new → OnOk result (honest self.new) }
        ensures answer { honest self.new
            → IfOk result (λ c. c ≡ candidate_after_of (history self.old) range.now issued) };

    /// Returns how many serials of one of the book's ranges were ever issued, are voided, and are
    /// free.
    ///
    /// Free is counted on the later of `day` and the day of the last kept call.
    ///
    /// # Errors
    ///
    /// - `Memory` if memory is refused.
    /// - `Store` if the store fails.
    fn usage(&mut self, range: &Range, day: u32) -> Result<Usage, BookFault>
        requires { honest self.old → Contains (ranges_of (history self.old)) range.now }
        ensures faults { CountsResult result (faults self.old) (faults self.new) }
        ensures unchanged { Unchanged history committed terms honest clean may_find self.old
            self.new }
        ensures opened { clean self.new → OnOk result (honest self.new) }
        ensures answer { honest self.new
            → IfOk result (λ u. u ≡ usage_of (history self.old) range.now day
            (terms self.old).interval) };

    /// Adds a call at the end of the history. A durable book has then committed all its calls. After
    /// an error it has committed none that was pending.
    ///
    /// The call must be one that may follow: a new key, a day that is not before the book's, and
    /// the outcome of the rules. The limit must not be reached.
    ///
    /// # Errors
    ///
    /// - `Memory` if memory is refused.
    /// - `Store` if the store fails.
    fn keep(&mut self, entry: Entry) -> Result<(), BookFault>
        requires { honest self.old → MayFollow (history self.old) (terms self.old) entry }
        ensures faults { CountsResult result (faults self.old) (faults self.new) }
        ensures was_honest { honest self.new → honest self.old }
        ensures same_terms { honest self.new → terms self.new ≡ terms self.old }
        ensures ok { honest self.new → OnOk result (history self.new ≡ history self.old ++ entry
            ∷ []) }
        ensures err { honest self.new → OnErr result (history self.new ≡ history self.old) }
        ensures stays_committed { honest self.new
            → Grows (committed self.old) (committed self.new) }
        ensures committed { durable → honest self.new
            → OnOk result (committed self.new ≡ history self.new) }
        ensures left { durable → honest self.new
            → OnErr result (committed self.new ≡ committed self.old) }
        ensures opened { clean self.new → OnOk result (honest self.new) }
        ensures stop { FindsAfter honest clean may_find self.old self.new
            (IsPerhapsWith (history self.old) entry) };

    // The history of an honest book is legal.
    ghost legal: { (book : Self) → honest book → IsLegal (history book) (terms book) };

    // The committed calls come first in the history.
    ghost first: { (book : Self) → honest book → Grows (committed book) (history book) };

    // An opening finds the committed calls of an honest book.
    ghost found: { (book : Self) → honest book → (found : Option (List Entry))
        → may_find book found → found ≡ Some (committed book) };
}
