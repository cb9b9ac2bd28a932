ghost use Rattle.std.specs.Prelude.{◌≡◌};
ghost use Rattle.s10_rows.specs.Tables.{serial_row};

use s10_core::pair_number;
use s10_history::Issuance;

/// A row of `serials`: the last issue of an identifier.
#[derive(Clone, Copy, Debug, PartialEq, Eq)]
pub struct SerialRow {
    /// The four bytes of service and country as a big-endian number.
    pub pair: i64,
    /// The serial of the identifier.
    pub serial: i64,
    /// The arrival of the call that issued it last, from 1.
    pub arrival: i64,
    /// The day of that call.
    pub day: i64,
    /// The customer of that call.
    pub customer: i64,
    /// The request number of that call.
    pub number: i64,
    /// 1 if the identifier was voided since, otherwise 0.
    pub voided: i64,
}

impl SerialRow {
    /// Returns the row of an issuance.
    pub fn of(issue: &Issuance, voided: bool) -> SerialRow
        ensures { result ≡ serial_row voided issue.now }
    {
        SerialRow {
            pair: i64::from(pair_number(issue.id.service, issue.id.country)),
            serial: i64::from(issue.id.serial.value()),
            arrival: i64::from(issue.arrival),
            day: i64::from(issue.day),
            customer: i64::from(issue.customer),
            number: i64::from(issue.number),
            voided: i64::from(voided),
        }
    }
}
