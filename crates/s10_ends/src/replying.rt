//! Sends the replies to the datagrams that a server received.

ghost use Rattle.std.specs.Prelude.{◌≡◌, ◌≤◌, ◌+◌, ◌++◌, [], ⊤, length, vec_capacity, Ok};
ghost use Rattle.std.specs.List.{AllZip};
ghost use Rattle.s10_link.specs.Link.{LeadsTo};
ghost use Rattle.s10_ends.specs.Server.{book_of};
ghost use Rattle.s10_ends.specs.Turn.{Answers, AsksCommitted, IsSentTurn, SendsCommitted, sends_for};
ghost use Rattle.s10_ends.specs.Batch.{sends_of};

use crate::answer::Answer;
use crate::exchange::Exchange;
use crate::server::Server;
use crate::server_turn::{ServerTurn, Turn};
use s10_book::{BookFault, GroupCommit};
use s10_link::{Link, Peer};
use s10_wire::Frame;

// Returns the turn of one exchange, and sends its reply if the call is committed.
pub(crate) fn answer<B: GroupCommit, L: Link>(
    link: &mut L,
    server: &Server<B>,
    taken: &Exchange,
    commit_result: Result<(), BookFault>,
) -> Turn
    ensures answers { Answers (B.honest (book_of server.now))
        (AsksCommitted (B.committed (book_of server.now)) (B.history (book_of server.now)))
        commit_result taken.now.from taken.now.packet taken.now.answer result }
    ensures sends { L.trace_of link.new ≡ L.trace_of link.old
        ++ sends_for taken.now.answer taken.now.from result }
    ensures led { LeadsTo L.step link.old link.new }
{
    match taken.answer {
        Answer::Reply(frame) => send_committed(link, server, taken, frame, commit_result),
        Answer::Dropped(fault) => Ok(ServerTurn::Dropped(taken.from, fault)),
        Answer::Faulted(fault) => Ok(ServerTurn::Faulted(taken.from, fault)),
    }
}

// Sends the reply to a datagram whose call is committed, if it has one.
pub(crate) fn answer_committed<L: Link>(link: &mut L, taken: &Exchange) -> Turn
    ensures answers { Answers ⊤ (λ b. ⊤) (Ok tt) taken.now.from taken.now.packet taken.now.answer
        result }
    ensures sends { L.trace_of link.new ≡ L.trace_of link.old
        ++ sends_for taken.now.answer taken.now.from result }
    ensures led { LeadsTo L.step link.old link.new }
{
    match taken.answer {
        Answer::Reply(frame) => send(link, taken.from, frame),
        Answer::Dropped(fault) => Ok(ServerTurn::Dropped(taken.from, fault)),
        Answer::Faulted(fault) => Ok(ServerTurn::Faulted(taken.from, fault)),
    }
}

// Sends a reply if the commit succeeded, or if its own call was committed before.
fn send_committed<B: GroupCommit, L: Link>(
    link: &mut L,
    server: &Server<B>,
    taken: &Exchange,
    frame: Frame,
    commit_result: Result<(), BookFault>,
) -> Turn
    ensures answers { SendsCommitted (B.honest (book_of server.now))
        (AsksCommitted (B.committed (book_of server.now)) (B.history (book_of server.now)))
        commit_result taken.now.from taken.now.packet frame result }
    ensures sends { L.trace_of link.new ≡ L.trace_of link.old
        ++ sends_for (Answer.Reply frame) taken.now.from result }
    ensures led { LeadsTo L.step link.old link.new }
{
    match commit_result {
        Err(fault) if !server.is_committed(taken.packet.bytes()) => {
            Ok(ServerTurn::Uncommitted(taken.from, fault))
        }
        _ => send(link, taken.from, frame),
    }
}

fn send<L: Link>(link: &mut L, to: Peer, frame: Frame) -> Turn
    ensures answers { IsSentTurn to frame result }
    ensures sends { L.trace_of link.new ≡ L.trace_of link.old
        ++ sends_for (Answer.Reply frame) to result }
    ensures led { LeadsTo L.step link.old link.new }
{
    link.send(to, &frame)?;
    Ok(ServerTurn::Replied(to, frame))
}

// Replies to each exchange in order, and adds its turn.
pub(crate) fn reply_all<B: GroupCommit, L: Link>(
    link: &mut L,
    server: &Server<B>,
    taken: &[Exchange],
    commit_result: Result<(), BookFault>,
    turns: &mut Vec<Turn>,
)
    requires none { turns.old.items ≡ [] }
    requires room { length taken.now ≤ vec_capacity turns.old }
    ensures answers { AllZip (λ t turn. Answers (B.honest (book_of server.now))
        (AsksCommitted (B.committed (book_of server.now)) (B.history (book_of server.now)))
        commit_result t.from t.packet t.answer turn) taken.now turns.new.items }
    ensures sends { L.trace_of link.new ≡ L.trace_of link.old ++ sends_of taken.now turns.new.items }
    ensures many { length turns.new.items ≡ length taken.now }
    ensures capacity { vec_capacity turns.new ≡ vec_capacity turns.old }
    ensures led { LeadsTo L.step link.old link.new }
{
    for next in taken {
        let turn = answer(link, server, next, commit_result);
        turns.push_reserved(turn);
    }
}
