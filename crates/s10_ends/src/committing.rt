//! Commits the calls of a batch before its replies are sent.

ghost use Rattle.std.specs.Prelude.{◌≡◌, true, false};
ghost use Rattle.s10_ends.specs.Server.{book_of};
ghost use Rattle.s10_ends.specs.Batch.{CommitsIfPending, HasCommittedReply, AllCommitted};
ghost use Rattle.s10_ends.specs.Batch.{is_reply as is_a_reply, has_reply};
ghost use Rattle.s10_ends.specs.Batch.{has_store_fault as has_a_store_fault};

use crate::answer::Answer;
use crate::exchange::Exchange;
use crate::receiving::is_reply;
use crate::server::Server;
use s10_book::{BookFault, GroupCommit};

// Commits the calls of the server if a reply of these exchanges is to a pending call, or if the store
// failed for one of them: the book may then hold as many pending calls as it can. Otherwise leaves
// the book unchanged, so that a repeat of a committed call needs no commit.
pub(crate) fn commit_if_pending<B: GroupCommit>(
    server: &mut Server<B>,
    taken: &[Exchange],
) -> Result<(), BookFault>
    ensures { CommitsIfPending B.faults B.honest B.terms B.history B.committed B.clean B.may_find
        (book_of server.old) (book_of server.new) taken.now result }
{
    if has_store_fault(taken) || has_pending_reply(server, taken) {
        return server.commit();
    }
    Ok(())
}

fn has_store_fault(taken: &[Exchange]) -> bool
    ensures { result ≡ has_a_store_fault taken.now }
{
    taken.iter().any(|next| matches!(next.answer, Answer::Faulted(BookFault::Store)))
}

fn has_pending_reply<B: GroupCommit>(server: &Server<B>, taken: &[Exchange]) -> bool
    ensures reply { result ≡ true → has_reply taken.now ≡ true }
    ensures pending { result ≡ true → B.honest (book_of server.now)
        → ¬ (AllCommitted (B.committed (book_of server.now)) (B.history (book_of server.now))
        taken.now) }
    ensures none { result ≡ false → B.honest (book_of server.now)
        → AllCommitted (B.committed (book_of server.now)) (B.history (book_of server.now))
        taken.now }
{
    for next in taken {
        if is_pending_reply(server, next) {
            return true;
        }
    }
    false
}

fn is_pending_reply<B: GroupCommit>(server: &Server<B>, taken: &Exchange) -> bool
    ensures reply { result ≡ true → is_a_reply taken.now.answer ≡ true }
    ensures pending { result ≡ true → B.honest (book_of server.now)
        → ¬ (HasCommittedReply (B.committed (book_of server.now)) (B.history (book_of server.now))
        taken.now) }
    ensures none { result ≡ false → B.honest (book_of server.now)
        → HasCommittedReply (B.committed (book_of server.now)) (B.history (book_of server.now))
        taken.now }
{
    is_reply(taken) && !server.is_committed(taken.packet.bytes())
}
