//! Serves the turns of a server, and prints them.

ghost use Rattle.std.specs.Prelude.{◌≡◌, ◌≢◌, None, Ok, OnOk};
ghost use Rattle.std.specs.List.{flat_map};
ghost use Rattle.std.specs.Io.KnownBytes.{Appends};
ghost use Rattle.s10_link.specs.Link.{LeadsTo};
ghost use Rattle.s10_ends.specs.Server.{book_of};
ghost use Rattle.s10_jobs.specs.TurnLines.{turn_line};
ghost use Rattle.s10_jobs.specs.Serving.{ServesLink, ServesTurns};

use crate::day_guard::day_of_batch;
use crate::days::Days;
use crate::drop_log::DropLog;
use crate::ending::Ending;
use crate::failure_log::FailureLog;
use crate::failures::fail_by_clock;
use crate::job_status::JobStatus;
use crate::ledger_log::LedgerLog;
use crate::turn_line::write_turn;
use crate::turn_options::TurnOptions;
use s10_book::{GroupCommit, LastFailure, MAX_BATCH};
use s10_ends::{BatchRoom, Server, Turn, serve_batch, serve_batch_of_one};
use s10_lines::WriteFault;
use s10_link::Link;
use std::alloc::Global;
use std::io::Write;
use std::time::Clock;

/// Serves the turns of the options in batches of up to 64 datagrams, and prints one line for each turn.
///
/// The calls of a batch are committed together if a reply is to a pending call. Then its replies are
/// sent, and its lines are written and flushed. Memory for a batch is allocated before the first one
/// and kept. If it cannot be allocated, the server handles one datagram without allocating, and then
/// tries again. Standard error has the sender of a dropped datagram at once. For a minute after that
/// it only counts them, and then has their number and the sender of the last. It also has the reason
/// why the ledger fails, at each change of the reason. Before the first batch it has the number of
/// calls and both days, then once a day that the ledger's last day is past the batch's, and once
/// that 90, 95 and 99 of each 100 calls of the limit are kept.
///
/// From the first batch to the last, each distinct request that arrived is applied once, in order
/// of first arrival, and the call of each reply that was sent is committed.
///
/// Before each batch the source of ends is asked once. If it says so, the turns end before their
/// count, with the status `Done`. Calls may still be pending then: closing the book commits them.
///
/// If no day is given, the source of days is asked once before each batch. If it gives no day, or one
/// that is further past the last day of the book than the options allow, the turns end with the line
/// `clock`. The status is `Done`, or `Failed` after `clock`.
///
/// # Errors
///
/// `WriteFault` if the writer fails. A batch whose lines fail was served, and part of them may be
/// written.
pub fn serve_turns<R, B, L, D, E, W>(
    rt: &R,
    alloc: Global,
    server: &mut Server<B>,
    link: &mut L,
    days: &mut D,
    ends: &mut E,
    options: TurnOptions,
    out: &mut W,
) -> Result<JobStatus, WriteFault>
where
    R: Clock + Eprint,
    B: GroupCommit + LastFailure,
    L: Link,
    D: Days,
    E: Ending,
    W: Write,
    ensures served { ServesLink B.honest B.terms B.history B.committed
        (L.trace_of link.old, book_of server.old) (L.trace_of link.new, book_of server.new) }
    ensures turns { ServesTurns B.faults B.honest B.terms B.history B.committed B.clean B.may_find
        D.gives options E.says
        (L.trace_of link.old, book_of server.old) (L.trace_of link.new, book_of server.new)
        days.old days.new ends.old ends.new (W.contents out.old) (W.contents out.new)
        result }
    ensures given { options.day ≢ None → result ≢ Ok JobStatus.Failed }
    ensures led { LeadsTo L.step link.old link.new }
{
    let mut room = BatchRoom::new(alloc);
    let mut drops = DropLog::new(rt);
    let mut failures = FailureLog::new(rt);
    let mut ledger = LedgerLog::new(rt);
    let mut done = 0;
    while done < options.count {
        if ends.is_due() {
            drops.eprint_rest();
            return Ok(JobStatus::Done);
        }
        let Some(today) = day_of_batch(rt, days, &options, server.book()) else {
            drops.eprint_rest();
            return fail_by_clock(out);
        };
        ledger.eprint_day(server.book(), today);
        let most = (options.count - done).min(MAX_BATCH);
        match serve_batch(&mut room, server, link, today, most) {
            Ok(()) => {
                let turns = room.turns();
                print_turns(&mut drops, turns, options.senders, out)?;
                done += turns.len() as u32;
            }
            Err(_) => {
                let turn = serve_batch_of_one(server, link, today);
                print_turns(&mut drops, &[turn], options.senders, out)?;
                done += 1;
            }
        }
        failures.eprint_change(server.book().last_failure());
        ledger.eprint_calls(server.book());
    }
    drops.eprint_rest();
    Ok(JobStatus::Done)
}

// Prints the lines of turns and flushes them, and logs the dropped datagrams.
fn print_turns<R: Clock + Eprint, W: Write>(
    drops: &mut DropLog<'_, R>,
    turns: &[Turn],
    senders: bool,
    out: &mut W,
) -> Result<(), WriteFault>
    ensures { OnOk result (Appends (W.contents out.old) (W.contents out.new)
        (flat_map (turn_line senders) turns.now)) }
{
    for turn in turns {
        drops.count(turn);
        write_turn(turn, senders, out)?;
    }
    drops.eprint_if_due();
    let Ok(()) = out.flush() else {
        return Err(WriteFault);
    };
    Ok(())
}
