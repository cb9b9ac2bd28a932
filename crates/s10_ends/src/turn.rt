//! Serves one datagram on a link.

ghost use Rattle.std.specs.Prelude.{◌≡◌, ◌∷◌, []};
ghost use Rattle.s10_link.specs.Link.{LeadsTo};
ghost use Rattle.s10_ends.specs.Server.{book_of};
ghost use Rattle.s10_ends.specs.Turn.{ServesOne};
ghost use Rattle.s10_ends.specs.Batch.{ServesBatch, IsSentCommitted};

use crate::committing::commit_if_pending;
use crate::receiving::take;
use crate::replying::{answer, answer_committed};
use crate::server::Server;
use crate::server_turn::{ServerTurn, Turn};
use s10_book::{Book, GroupCommit};
use s10_link::Link;

/// Serves at most one datagram over a durable book, without a commit: one receive, and at most one
/// send.
///
/// If all calls were committed before, all are afterwards, and the turn is that of a batch of at
/// most one datagram. The function does not allocate.
///
/// # Errors
///
/// - `Receive` if the receive failed, or `Spent` if the link cannot count another call. The server
///   is unchanged.
/// - `Send` if the send failed, or `Spent` if the link has no send left. The datagram was handled,
///   and its call is kept.
pub fn serve_one<B: Book, L: Link>(server: &mut Server<B>, link: &mut L, day: u32) -> Turn
    requires { B.durable }
    ensures turn { ServesOne B.faults B.honest B.terms B.history B.committed B.clean B.may_find day
        (L.trace_of link.old, book_of server.old) (L.trace_of link.new, book_of server.new)
        result }
    ensures served { (B.honest (book_of server.new) → B.committed (book_of server.old)
        ≡ B.history (book_of server.old)) → (taken : _) × ServesBatch B.faults B.honest
        B.terms B.history B.committed B.clean B.may_find day 1
        (L.trace_of link.old, book_of server.old) (L.trace_of link.new, book_of server.new)
        taken (result ∷ []) }
    ensures whole { B.honest (book_of server.new) → B.committed (book_of server.old)
        ≡ B.history (book_of server.old) → B.committed (book_of server.new)
        ≡ B.history (book_of server.new) }
    ensures stands { B.honest (book_of server.new) → B.committed (book_of server.old)
        ≡ B.history (book_of server.old) → IsSentCommitted (B.committed (book_of server.new))
        result }
    ensures led { LeadsTo L.step link.old link.new }
{
    let Some(taken) = take(server, link, day)? else {
        return Ok(ServerTurn::Quiet);
    };
    answer_committed(link, &taken)
}

/// Serves a batch of at most one datagram, without allocating: one receive, a commit if there is a
/// reply to a pending call or if the store failed, and at most one send.
///
/// # Errors
///
/// - `Receive` if the receive failed, or `Spent` if the link cannot count another call. The server
///   is unchanged.
/// - `Send` if the send failed, or `Spent` if the link has no send left. The datagram was handled,
///   and its call is kept.
pub fn serve_batch_of_one<B: GroupCommit, L: Link>(
    server: &mut Server<B>,
    link: &mut L,
    day: u32,
) -> Turn
    ensures served { (taken : _) × ServesBatch B.faults B.honest B.terms B.history B.committed B.clean
        B.may_find day 1
        (L.trace_of link.old, book_of server.old) (L.trace_of link.new, book_of server.new)
        taken (result ∷ []) }
    ensures stands { B.honest (book_of server.new)
        → IsSentCommitted (B.committed (book_of server.new)) result }
    ensures led { LeadsTo L.step link.old link.new }
{
    let Some(taken) = take(server, link, day)? else {
        return Ok(ServerTurn::Quiet);
    };
    let commit_result = commit_if_pending(server, &[taken]);
    answer(link, server, &taken, commit_result)
}
