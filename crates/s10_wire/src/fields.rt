//! Decoders of the fields of a datagram. An offset counts bytes from 0.

ghost use Rattle.std.specs.Prelude.{◌≡◌, ℕ, ◌+◌, ◌<◌, ◌≤◌, ◌^◌, ◌++◌, ◌∷◌, Bool, true, false};
ghost use Rattle.std.specs.Prelude.{length, take, drop, IfOk, IfErr};
ghost use Rattle.s10_core.specs.Serial.{IsSerial};
ghost use Rattle.s10_wire.specs.Datagrams.{u32_bytes};
ghost use Rattle.s10_core.specs.Letters.{AreCapitals, letters_of};
ghost use Rattle.s10_core.specs.Id.{IsId, spelling_of};
ghost use Rattle.s10_wire.specs.Ids.{IsCount};
ghost use Rattle.s10_wire.specs.WireFault.{are_letters, is_serial, is_identifier, is_count, byte};
ghost use Rattle.s10_wire.specs.WireFault.{number};

use crate::count::Count;
use crate::wire_fault::WireFault;
use s10_core::{Country, Id, Serial, Service};

/// Returns the number in the four big-endian bytes at an offset.
pub fn number_at(bytes: &[u8], at: usize) -> u32
    requires { at + 4 ≤ length bytes.now }
    ensures value { result ≡ number bytes.now at }
    ensures read { drop at bytes.now ≡ u32_bytes result ++ drop (at + 4) bytes.now }
{
    u32::from_be_bytes([bytes[at], bytes[at + 1], bytes[at + 2], bytes[at + 3]])
}

/// Reads the service in the two bytes at an offset.
///
/// # Errors
///
/// - `Field(at)` if one of the bytes is not a letter from A to Z.
pub fn service_at(bytes: &[u8], at: u16) -> Result<Service, WireFault>
    requires { at + 2 ≤ length bytes.now }
    ensures ok { IfOk result (λ s. are_letters bytes.now at ≡ true) }
    ensures read { IfOk result (λ s. AreCapitals s
        × (drop at bytes.now ≡ letters_of s ++ drop (at + 2) bytes.now)) }
    ensures err { IfErr result (λ f. (f ≡ WireFault.Field at)
        × (are_letters bytes.now at ≡ false)) }
{
    let start = at as usize;
    match Service::new([bytes[start], bytes[start + 1]]) {
        Some(service) => Ok(service),
        None => Err(WireFault::Field(at)),
    }
}

/// Reads the country in the two bytes at an offset.
///
/// # Errors
///
/// - `Field(at)` if one of the bytes is not a letter from A to Z.
pub fn country_at(bytes: &[u8], at: u16) -> Result<Country, WireFault>
    requires { at + 2 ≤ length bytes.now }
    ensures ok { IfOk result (λ s. are_letters bytes.now at ≡ true) }
    ensures read { IfOk result (λ s. AreCapitals s
        × (drop at bytes.now ≡ letters_of s ++ drop (at + 2) bytes.now)) }
    ensures err { IfErr result (λ f. (f ≡ WireFault.Field at)
        × (are_letters bytes.now at ≡ false)) }
{
    let start = at as usize;
    match Country::new([bytes[start], bytes[start + 1]]) {
        Some(country) => Ok(country),
        None => Err(WireFault::Field(at)),
    }
}

/// Reads the serial number in the four big-endian bytes at an offset.
///
/// # Errors
///
/// - `Field(at)` if the number is above 99,999,999.
pub fn serial_at(bytes: &[u8], at: u16) -> Result<Serial, WireFault>
    requires { at + 4 ≤ length bytes.now }
    ensures ok { IfOk result (λ v. is_serial bytes.now at ≡ true) }
    ensures read { IfOk result (λ v. IsSerial v
        × (drop at bytes.now ≡ u32_bytes v ++ drop (at + 4) bytes.now)) }
    ensures err { IfErr result (λ f. (f ≡ WireFault.Field at) × (is_serial bytes.now at ≡ false)) }
{
    match Serial::new(number_at(bytes, at as usize)) {
        Some(serial) => Ok(serial),
        None => Err(WireFault::Field(at)),
    }
}

/// Reads the identifier in the 13 bytes at an offset.
///
/// # Errors
///
/// - `Field(at)` if the bytes do not spell an identifier.
#[tactic(auto, using(crate::proofs::Identifiers::spells_passes, crate::proofs::Identifiers::refused_fails, crate::proofs::Identifiers::stands_at))]
pub fn id_at(bytes: &[u8], at: u16) -> Result<Id, WireFault>
    requires { at + 13 ≤ length bytes.now }
    ensures ok { IfOk result (λ id. is_identifier bytes.now at ≡ true) }
    ensures read { IfOk result (λ id. IsId id
        × (drop at bytes.now ≡ spelling_of id ++ drop (at + 13) bytes.now)) }
    ensures err { IfErr result (λ f. (f ≡ WireFault.Field at)
        × (is_identifier bytes.now at ≡ false)) }
{
    let (_, rest) = bytes.split_at(at as usize);
    let (text, _) = rest.split_at(13);
    match Id::read(text) {
        Ok(id) => Ok(id),
        Err(_) => Err(WireFault::Field(at)),
    }
}

/// Reads the count of a sheet in the byte at an offset.
///
/// # Errors
///
/// - `Field(at)` if the byte is 0 or above 16.
pub fn count_at(bytes: &[u8], at: u16) -> Result<Count, WireFault>
    requires { at + 1 ≤ length bytes.now }
    ensures ok { IfOk result (λ n. is_count (byte bytes.now at) ≡ true) }
    ensures read { IfOk result (λ n. IsCount n
        × (drop at bytes.now ≡ n ∷ drop (at + 1) bytes.now)) }
    ensures err { IfErr result (λ f. (f ≡ WireFault.Field at)
        × (is_count (byte bytes.now at) ≡ false)) }
{
    match Count::new(bytes[at as usize]) {
        Some(count) => Ok(count),
        None => Err(WireFault::Field(at)),
    }
}
