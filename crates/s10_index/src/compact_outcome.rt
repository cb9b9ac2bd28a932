//! Outcomes in compact form.

ghost use Rattle.std.specs.Prelude.{◌≡◌, ◌++◌, ◌<◌, length};
ghost use Rattle.std.specs.Prelude.{slice_get};
ghost use Rattle.s10_history.specs.Issues.{carried_by};
ghost use Rattle.s10_index.specs.CompactOutcomes.{outcome_of, sheet_of, NamesSheetOf};

use crate::blocks::Blocks;
use s10_core::Id;
use s10_wire::{Ids, Outcome, Status};

/// An outcome in which a sheet is named by its index in a list of sheets, from 0.
///
/// An `Outcome` always has space for sixteen identifiers, and most outcomes have at most one.
#[derive(Clone, Copy)]
pub(crate) enum CompactOutcome {
    Granted { range: u32 },
    Drawn { day: u32, id: Id },
    DrawnMany { day: u32, sheet: u32 },
    Voided,
    Told(Status),
    Withdrawn,
    NotThePost,
    BadGrant,
    Overlap,
    NoRange,
    NoneFree,
    NotYours,
    NotIssued,
    AlreadyVoid,
    NoSuchRange,
    Closed,
    NumberReused,
}

impl CompactOutcome {
    /// Returns the outcome in compact form. Appends its sheet, if it has one, to `sheets` in
    /// reserved memory.
    pub(crate) fn of(outcome: Outcome, sheets: &mut Blocks<Ids>) -> CompactOutcome
        requires room { 0 < sheets.old.room }
        requires few { length sheets.old.items < 4294967295 }
        ensures sheets { sheets.new.items ≡ sheets.old.items ++ sheet_of outcome }
        ensures restored { outcome_of sheets.new.items result ≡ outcome }
        ensures named { NamesSheetOf (length sheets.new.items) result }
    {
        match outcome {
            Outcome::Granted { range } => CompactOutcome::Granted { range },
            Outcome::Drawn { day, id } => CompactOutcome::Drawn { day, id },
            Outcome::DrawnMany { day, ids } => {
                let sheet = sheets.len() as u32;
                sheets.push_reserved(ids);
                CompactOutcome::DrawnMany { day, sheet }
            }
            Outcome::Voided => CompactOutcome::Voided,
            Outcome::Told(status) => CompactOutcome::Told(status),
            Outcome::Withdrawn => CompactOutcome::Withdrawn,
            Outcome::NotThePost => CompactOutcome::NotThePost,
            Outcome::BadGrant => CompactOutcome::BadGrant,
            Outcome::Overlap => CompactOutcome::Overlap,
            Outcome::NoRange => CompactOutcome::NoRange,
            Outcome::NoneFree => CompactOutcome::NoneFree,
            Outcome::NotYours => CompactOutcome::NotYours,
            Outcome::NotIssued => CompactOutcome::NotIssued,
            Outcome::AlreadyVoid => CompactOutcome::AlreadyVoid,
            Outcome::NoSuchRange => CompactOutcome::NoSuchRange,
            Outcome::Closed => CompactOutcome::Closed,
            Outcome::NumberReused => CompactOutcome::NumberReused,
        }
    }

    /// Returns the outcome. Its sheet, if it has one, is in `sheets`.
    pub(crate) fn expand(self, sheets: &Blocks<Ids>) -> Outcome
        requires { NamesSheetOf (length sheets.now.items) self }
        ensures { result ≡ outcome_of sheets.now.items self }
    {
        match self {
            CompactOutcome::Granted { range } => Outcome::Granted { range },
            CompactOutcome::Drawn { day, id } => Outcome::Drawn { day, id },
            CompactOutcome::DrawnMany { day, sheet } => Outcome::DrawnMany {
                day,
                ids: sheets.at(sheet as usize),
            },
            CompactOutcome::Voided => Outcome::Voided,
            CompactOutcome::Told(status) => Outcome::Told(status),
            CompactOutcome::Withdrawn => Outcome::Withdrawn,
            CompactOutcome::NotThePost => Outcome::NotThePost,
            CompactOutcome::BadGrant => Outcome::BadGrant,
            CompactOutcome::Overlap => Outcome::Overlap,
            CompactOutcome::NoRange => Outcome::NoRange,
            CompactOutcome::NoneFree => Outcome::NoneFree,
            CompactOutcome::NotYours => Outcome::NotYours,
            CompactOutcome::NotIssued => Outcome::NotIssued,
            CompactOutcome::AlreadyVoid => Outcome::AlreadyVoid,
            CompactOutcome::NoSuchRange => Outcome::NoSuchRange,
            CompactOutcome::Closed => Outcome::Closed,
            CompactOutcome::NumberReused => Outcome::NumberReused,
        }
    }

    /// Returns the day and the identifier of the issuance at an index from 0, or `None` if it has
    /// fewer. Its sheet, if it has one, is in `sheets`.
    pub(crate) fn issued_at(self, sheets: &Blocks<Ids>, at: u8) -> Option<(u32, Id)>
        requires { NamesSheetOf (length sheets.now.items) self }
        ensures { result ≡ slice_get (carried_by (outcome_of sheets.now.items self)) at }
    {
        match self {
            CompactOutcome::Drawn { day, id } if at == 0 => Some((day, id)),
            CompactOutcome::DrawnMany { day, sheet } => {
                match sheets.at(sheet as usize).get(at as usize) {
                    None => None,
                    Some(id) => Some((day, id)),
                }
            }
            _ => None,
        }
    }
}
