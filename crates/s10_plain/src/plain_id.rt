//! An identifier as a C struct.
ghost use Rattle.std.specs.Prelude.{◌≡◌, ◌++◌, ◌∷◌, []};
ghost use Rattle.s10_core.specs.Id.{IsId, spelling_of};
ghost use Rattle.s10_plain.specs.Identifiers.{plain_id_of, group_code_of};

use s10_core::{Group, Id};

/// An identifier: its text and its parts.
#[repr(C)]
#[derive(Clone, Copy, Debug, PartialEq, Eq)]
pub struct PlainId {
    /// The 13 characters and a closing zero.
    pub text: [u8; 14],
    /// The service indicator, with no closing zero.
    pub service: [u8; 2],
    /// The country code, with no closing zero.
    pub country: [u8; 2],
    /// The serial number, 0 to 99,999,999.
    pub serial: u32,
    /// The group of the service: 1 parcel, 2 EMS, 3 registered, 4 insured, 5 other.
    pub group: u32,
}

/// Returns the text with a closing zero.
pub fn closed_text(id: &Id) -> [u8; 14]
    ensures text { result ≡ spelling_of id.now ++ 0 ∷ [] }
    ensures in_range { IsId id.now }
{
    let [a, b, c, d, e, f, g, h, i, j, k, l, m] = id.write();
    [a, b, c, d, e, f, g, h, i, j, k, l, m, 0]
}

fn group_code(group: Group) -> u32
    ensures { result ≡ group_code_of group }
{
    match group {
        Group::Parcel => 1,
        Group::Ems => 2,
        Group::Registered => 3,
        Group::Insured => 4,
        Group::Other => 5,
    }
}

/// Returns the C struct of an identifier.
pub fn plain(id: &Id) -> PlainId
    ensures { result ≡ plain_id_of id.now }
{
    PlainId {
        text: closed_text(id),
        service: id.service.bytes(),
        country: id.country.bytes(),
        serial: id.serial.value(),
        group: group_code(id.service.group()),
    }
}
