use crate::country::Country;
use crate::digits::{check_digit, serial_digits};
use crate::label::normalize_label;
use crate::places::check_places;
use crate::serial::Serial;
use crate::service::Service;
use crate::text_fault::TextFault;

/// An identifier of a postal item, for example RA473124829US (UPU S10).
///
/// Its text has 13 characters: the two letters of the service indicator, the eight digits of the
/// serial number, the check digit, and the two letters of the country code. Every combination of
/// service, serial number and country is an identifier.
#[derive(Clone, Copy, Debug, PartialEq, Eq)]
pub struct Id {
    /// Service indicator: the kind of item.
    pub service: Service,
    /// Serial number of the item, 0 to 99,999,999.
    pub serial: Serial,
    /// Country code of the post that issued the identifier.
    pub country: Country,
}

impl Id {
    ghost use Rattle.std.specs.Prelude.{◌≡◌, IfOk, IfErr, Ok};
    ghost use Rattle.s10_core.specs.Id.{Spells, SpellsLoosely, normalized};
    ghost use Rattle.s10_core.specs.TextFault.{IsFirstRefusal};
    ghost use Rattle.s10_core.specs.declared.id.Id.{Id};

    /// Reads an identifier from exactly its 13 characters.
    ///
    /// # Errors
    ///
    /// The first that applies:
    ///
    /// - `Length` if the text does not have 13 characters.
    /// - `Letter` if the leftmost wrong place needs a letter from A to Z.
    /// - `Digit` if the leftmost wrong place needs a digit.
    /// - `CheckDigit` if the check digit is not that of the serial number.
    pub fn read(text: &[u8]) -> Result<Id, TextFault>
        ensures ok { IfOk result (Spells text.now) }
        ensures spelled { (id : Id) → Spells text.now id → result ≡ Ok id }
        ensures refused { IfErr result (IsFirstRefusal text.now) }
    {
        if text.len() != 13 {
            return Err(TextFault::Length);
        }
        check_places(text)?;
        let service = Service::new([text[0], text[1]]).unwrap();
        let serial = Serial::read(&text[2..10]).unwrap();
        let country = Country::new([text[11], text[12]]).unwrap();
        if text[10] != b'0' + check_digit(serial) {
            return Err(TextFault::CheckDigit);
        }
        Ok(Id {
            service,
            serial,
            country,
        })
    }

    /// Reads an identifier as printed on a label: with ASCII spaces anywhere, and letters of either
    /// case.
    ///
    /// The rules for labels are this project's choice, see docs/IDENTIFIERS.md.
    ///
    /// # Errors
    ///
    /// The errors of `read` for the text without its spaces and in capitals; a place is counted in
    /// that text.
    pub fn read_label(text: &[u8]) -> Result<Id, TextFault>
        ensures ok { IfOk result (SpellsLoosely text.now) }
        ensures spelled { (id : Id) → SpellsLoosely text.now id → result ≡ Ok id }
        ensures refused { IfErr result (IsFirstRefusal (normalized text.now)) }
    {
        Id::read(&normalize_label(text)?)
    }

    /// Returns the 13 characters of the identifier in ASCII: capitals and digits, no spaces.
    pub fn write(&self) -> [u8; 13]
        ensures { Spells result self.now }
    {
        let [s0, s1] = self.service.bytes();
        let [d1, d2, d3, d4, d5, d6, d7, d8] = serial_digits(self.serial);
        let check = b'0' + check_digit(self.serial);
        let [c0, c1] = self.country.bytes();
        [s0, s1, d1, d2, d3, d4, d5, d6, d7, d8, check, c0, c1]
    }
}
