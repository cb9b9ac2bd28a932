//! Reads rows of `calls`.

ghost use Rattle.std.specs.Prelude.{◌≡◌, ℕ, pos, Some, IfSome, IfNone};
ghost use Rattle.s10_wire.specs.Datagrams.{Replies};
ghost use Rattle.s10_history.specs.declared.entry.Entry.{Entry};
ghost use Rattle.s10_rows.specs.Tables.{call_row};
ghost use Rattle.s10_rows.specs.Selected.{IsCall};
ghost use Rattle.s10_replay.specs.ReadRows.{IsCallOf};

use crate::column::number_in;
use s10_history::Entry;
use s10_rows::CallRow;
use s10_wire::decode_reply;

// Returns the call of the row. None if its reply does not decode, or its day is not a number of 32
// bits.
pub(crate) fn entry_in_row(row: &CallRow) -> Option<Entry>
    ensures read { IfSome result (IsCallOf row.now) }
    ensures none { IfNone result ((e : Entry) → IsCall e → Replies row.now.reply e.request e.outcome
        → ¬ (row.now.day ≡ pos e.day)) }
    ensures kept { (n : ℕ) (e : Entry) → IsCall e → row.now ≡ call_row n e → result ≡ Some e }
{
    let day = number_in(row.day())?;
    let Ok(reply) = decode_reply(row.reply()) else {
        return None;
    };
    Some(Entry {
        request: reply.request(),
        day,
        outcome: reply.outcome(),
    })
}
