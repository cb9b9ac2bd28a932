//! Serves one batch of datagrams on a link.

ghost use Rattle.std.specs.Prelude.{◌≡◌, ◌≤◌, ◌+◌, [], length, All, OnOk, OnErr, IsOk};
ghost use Rattle.std.specs.Prelude.{vec_capacity, Ok};
ghost use Rattle.s10_link.specs.Link.{LeadsTo};
ghost use Rattle.s10_ends.specs.Server.{book_of};
ghost use Rattle.s10_ends.specs.Batch.{ServesBatch, CommitsAndReplies, IsSentCommitted};
ghost use Rattle.s10_ends.specs.Batch.{turns_of_batch};
ghost use Rattle.s10_ends.specs.BatchRoom.{HasRoomFor, exchanges_in, turns_in};

use crate::batch_room::BatchRoom;
use crate::committing::commit_if_pending;
use crate::exchange::Exchange;
use crate::receiving::handle_batch;
use crate::replying::reply_all;
use crate::server::Server;
use crate::server_turn::{ServerTurn, Turn};
use s10_book::GroupCommit;
use s10_link::{Link, LinkFault};
use std::alloc::AllocError;

/// Receives up to `most` datagrams, waiting only for the first, commits their calls together, then
/// sends the replies, each to its peer. A commit is tried if a reply is to a pending call, or if the
/// store failed for a datagram.
///
/// The room then has one turn per datagram, in order of arrival, at most `most` in all. A receive
/// that failed is one more turn, the last one. If no datagram arrived, the only turn is `Quiet`. If
/// the commit fails, a reply whose own call is not committed is not sent: its turn is
/// `Uncommitted`. `most` must be at least 1. After a batch the room has memory for another one of up
/// to `most`, which then allocates nothing.
///
/// # Errors
///
/// `AllocError` if memory for the batch cannot be allocated. Nothing is received then, the server is
/// unchanged, and the room has no turns.
pub fn serve_batch<B: GroupCommit, L: Link>(
    room: &mut BatchRoom,
    server: &mut Server<B>,
    link: &mut L,
    day: u32,
    most: u32,
) -> Result<(), AllocError>
    requires { 1 ≤ most }
    ensures served { OnOk result (ServesBatch B.faults B.honest B.terms B.history B.committed
        B.clean B.may_find day most
        (L.trace_of link.old, book_of server.old) (L.trace_of link.new, book_of server.new)
        (exchanges_in room.new) (turns_in room.new)) }
    ensures stands { B.honest (book_of server.new)
        → OnOk result (All (IsSentCommitted (B.committed (book_of server.new)))
        (turns_in room.new)) }
    ensures some { OnOk result (1 ≤ length (turns_in room.new)) }
    ensures few { OnOk result (length (turns_in room.new) ≤ most) }
    ensures refused { OnErr result ((L.trace_of link.new ≡ L.trace_of link.old)
        × (book_of server.new ≡ book_of server.old) × (turns_in room.new ≡ [])) }
    ensures room { OnOk result (HasRoomFor most room.new) }
    ensures had { HasRoomFor most room.old → IsOk result }
    ensures led { LeadsTo L.step link.old link.new }
{
    room.clear_for(most)?;
    let first = link.receive();
    let ended = handle_batch(server, link, first, day, most, &mut room.taken);
    commit_and_reply(server, link, &room.taken, &mut room.turns);
    push_end(ended, &mut room.turns);
    Ok(())
}

// Commits the calls of a batch if that is needed, then sends the replies.
fn commit_and_reply<B: GroupCommit, L: Link>(
    server: &mut Server<B>,
    link: &mut L,
    taken: &[Exchange],
    turns: &mut Vec<Turn>,
)
    requires none { turns.old.items ≡ [] }
    requires room { length taken.now ≤ vec_capacity turns.old }
    ensures answered { CommitsAndReplies B.faults B.honest B.terms B.history B.committed B.clean
        B.may_find
        (L.trace_of link.old, book_of server.old) (L.trace_of link.new, book_of server.new)
        taken.now turns.new.items }
    ensures many { length turns.new.items ≡ length taken.now }
    ensures capacity { vec_capacity turns.new ≡ vec_capacity turns.old }
    ensures led { LeadsTo L.step link.old link.new }
{
    let commit_result = commit_if_pending(server, taken);
    reply_all(link, server, taken, commit_result, turns);
}

// Adds a turn for a failed receive, or `Quiet` if there is no turn.
fn push_end(ended: Result<(), LinkFault>, turns: &mut Vec<Turn>)
    requires { length turns.old.items + 1 ≤ vec_capacity turns.old }
    ensures turns { turns.new.items ≡ turns_of_batch ended turns.old.items }
    ensures capacity { vec_capacity turns.new ≡ vec_capacity turns.old }
{
    if let Err(fault) = ended {
        turns.push_reserved(Err(fault));
    } else if turns.is_empty() {
        turns.push_reserved(Ok(ServerTurn::Quiet));
    }
}
