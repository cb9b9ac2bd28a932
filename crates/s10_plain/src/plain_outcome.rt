//! The outcome of a request as a C struct.
ghost use Rattle.std.specs.Prelude.{◌≡◌, ◌∷◌, []};
ghost use Rattle.s10_plain.specs.Replies.{plain_outcome_of, text_at, texts_of, refusal_of};

use crate::plain_id::closed_text;
use s10_core::Id;
use s10_wire::{Ids, Outcome, Status};

/// The outcome of a request. The fields that it lacks are zero.
#[repr(C)]
#[derive(Clone, Copy, Debug, PartialEq, Eq)]
pub struct PlainOutcome {
    /// The day of a draw or draw-many that is done, or of the last issue that a query reports.
    pub day: u32,
    /// The range number of a grant that is done.
    pub range: u32,
    /// 0 if the request is done, otherwise the refusal, 1 to 11.
    pub code: u8,
    /// The status that a query reports: 0 unknown, 1 never issued, 2 issued, 3 voided.
    pub status: u8,
    /// The number of identifiers, 0 to 16.
    pub count: u8,
    /// The identifiers, each with a closing zero; zeros after the last.
    pub texts: [[u8; 14]; 16],
}

fn slot(id: Option<Id>) -> [u8; 14]
    ensures { result ≡ text_at id }
{
    match id {
        Some(id) => closed_text(&id),
        None => [0; 14],
    }
}

fn sheet(ids: &Ids) -> [[u8; 14]; 16]
    ensures { result ≡ texts_of ids.now }
{
    [
        slot(ids.get(0)),
        slot(ids.get(1)),
        slot(ids.get(2)),
        slot(ids.get(3)),
        slot(ids.get(4)),
        slot(ids.get(5)),
        slot(ids.get(6)),
        slot(ids.get(7)),
        slot(ids.get(8)),
        slot(ids.get(9)),
        slot(ids.get(10)),
        slot(ids.get(11)),
        slot(ids.get(12)),
        slot(ids.get(13)),
        slot(ids.get(14)),
        slot(ids.get(15)),
    ]
}

fn no_sheet() -> [[u8; 14]; 16]
    ensures { result ≡ texts_of [] }
{
    [[0; 14]; 16]
}

fn one_text(id: &Id) -> [[u8; 14]; 16]
    ensures { result ≡ texts_of (id.now ∷ []) }
{
    let mut texts = [[0; 14]; 16];
    texts[0] = closed_text(id);
    texts
}

fn refused(code: u8) -> PlainOutcome
    ensures { result ≡ refusal_of code }
{
    PlainOutcome {
        day: 0,
        range: 0,
        code,
        status: 0,
        count: 0,
        texts: no_sheet(),
    }
}

fn status_outcome(status: Status) -> PlainOutcome
    ensures { result ≡ plain_outcome_of (Outcome.Told status) }
{
    let none = refused(0);
    match status {
        Status::Unknown => none,
        Status::Never => PlainOutcome { status: 1, ..none },
        Status::Issued { day } => PlainOutcome {
            status: 2,
            day,
            ..none
        },
        Status::Voided { day } => PlainOutcome {
            status: 3,
            day,
            ..none
        },
    }
}

/// Returns the C struct of an outcome.
pub fn plain(outcome: &Outcome) -> PlainOutcome
    ensures { result ≡ plain_outcome_of outcome.now }
{
    match *outcome {
        Outcome::Granted { range } => PlainOutcome {
            range,
            ..refused(0)
        },
        Outcome::Drawn { day, id } => PlainOutcome {
            day,
            count: 1,
            texts: one_text(&id),
            ..refused(0)
        },
        Outcome::DrawnMany { day, ids } => PlainOutcome {
            day,
            count: ids.len() as u8,
            texts: sheet(&ids),
            ..refused(0)
        },
        Outcome::Voided => refused(0),
        Outcome::Told(status) => status_outcome(status),
        Outcome::Withdrawn => refused(0),
        Outcome::NotThePost => refused(1),
        Outcome::BadGrant => refused(2),
        Outcome::Overlap => refused(3),
        Outcome::NoRange => refused(4),
        Outcome::NoneFree => refused(5),
        Outcome::NotYours => refused(6),
        Outcome::NotIssued => refused(7),
        Outcome::AlreadyVoid => refused(8),
        Outcome::NumberReused => refused(9),
        Outcome::NoSuchRange => refused(10),
        Outcome::Closed => refused(11),
    }
}
