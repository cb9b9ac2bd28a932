//! Laws of texts and identifiers.
ghost use Rattle.std.specs.Prelude.{◌≡◌, ◌↔◌, ℕ, List, slice_range, IsTrue};
ghost use Rattle.s10_core.specs.declared.id.Id.{Id};
ghost use Rattle.s10_core.specs.declared.text_fault.TextFault.{TextFault};
ghost use Rattle.s10_core.specs.Serial.{AreEightDigits, number_of, digits_of};
ghost use Rattle.s10_core.specs.Id.{Spells, same_id};
ghost use Rattle.s10_core.specs.TextFault.{IsFirstRefusal};

/// States that an identifier has one spelling, and that a text either spells one identifier or has
/// one first refusal.
///
/// The digits of a spelling are those of the serial number.
pub fn one_spelling_each()
    ensures one_text { (a b : List ℕ) (id : Id) → Spells a id → Spells b id → a ≡ b }
    ensures one_id { (text : List ℕ) (x y : Id) → Spells text x → Spells text y → x ≡ y }
    ensures serial { (text : List ℕ) (id : Id) → Spells text id → number_of (slice_range text 2 10)
        ≡ id.serial }
    ensures digits { (text : List ℕ) → AreEightDigits text → digits_of (number_of text) ≡ text }
    ensures one_refusal { (text : List ℕ) (e f : TextFault) → IsFirstRefusal text e
        → IsFirstRefusal text f → e ≡ f }
    ensures no_both { (text : List ℕ) (id : Id) (fault : TextFault) → Spells text id
        → ¬ (IsFirstRefusal text fault) }

    // The test for equal identifiers that definitions use.
    ensures same { (x y : Id) → IsTrue (same_id x y) ↔ (x ≡ y) }
{}
