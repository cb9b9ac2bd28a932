//! The kind of character that each place of an identifier needs.
ghost use Rattle.std.specs.Prelude.{◌≡◌, ℕ, IfErr, OnOk, length};
ghost use Rattle.s10_core.specs.TextFault.{IsRightBefore, IsFirstRefusal};

use crate::text_fault::TextFault;

/// Checks that each of 13 characters is of the kind that its place needs.
///
/// # Errors
///
/// - `Letter` if the leftmost wrong place needs a letter from A to Z.
/// - `Digit` if the leftmost wrong place needs a digit.
pub fn check_places(text: &[u8]) -> Result<(), TextFault>
    requires { length text.now ≡ 13 }
    ensures ok { OnOk result (IsRightBefore text.now 13) }
    ensures refused { IfErr result (IsFirstRefusal text.now) }
{
    for at in 0..13 {
        let character = text[at as usize];
        if at < 2 || at >= 11 {
            if !character.is_ascii_uppercase() {
                return Err(TextFault::Letter(at));
            }
        } else if !character.is_ascii_digit() {
            return Err(TextFault::Digit(at));
        }
    }
    Ok(())
}
