use thiserror::Error;

/// Why a text does not spell an identifier: the first of these that applies.
///
/// A place is the index of a character, from 0. The leftmost wrong place decides between `Letter`
/// and `Digit`. The order is this project's choice, see docs/IDENTIFIERS.md.
#[derive(Clone, Copy, Debug, PartialEq, Eq, Error)]
pub enum TextFault {
    /// The text does not have 13 characters.
    #[error("an identifier has 13 characters")]
    Length,
    /// The leftmost wrong place, 0, 1, 11 or 12, needs a letter from A to Z.
    #[error("place {0} needs a letter from A to Z")]
    Letter(u8),
    /// The leftmost wrong place, 2 to 10, needs a digit.
    #[error("place {0} needs a digit")]
    Digit(u8),
    /// The check digit is not that of the serial number.
    #[error("the check digit is not that of the serial number")]
    CheckDigit,
}
