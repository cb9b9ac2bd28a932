//! Receives the datagrams of a server and handles them, without sending a reply.

ghost use Rattle.std.specs.Prelude.{◌≡◌, ◌≤◌, [], length, vec_capacity};
ghost use Rattle.s10_link.specs.declared.trace.Trace.{Trace};
ghost use Rattle.s10_link.specs.Link.{LeadsTo, Receives};
ghost use Rattle.s10_ends.specs.Server.{book_of};
ghost use Rattle.s10_ends.specs.Turn.{Handles, Takes};
ghost use Rattle.s10_ends.specs.Batch.{ReceivesBatch, is_reply as is_a_reply};

use crate::answer::Answer;
use crate::exchange::Exchange;
use crate::server::Server;
use s10_book::Book;
use s10_link::{Link, LinkFault, Packet, Peer};

// Receives the next datagram, waiting for it, and handles it on this day.
pub(crate) fn take<B: Book, L: Link>(
    server: &mut Server<B>,
    link: &mut L,
    day: u32,
) -> Result<Option<Exchange>, LinkFault>
    ensures takes { Takes (λ before after b answer. Handles B.faults B.honest B.terms B.history
        B.committed B.clean B.may_find before after day b answer)
        (L.trace_of link.old, book_of server.old) (L.trace_of link.new, book_of server.new) result }
    ensures whole { B.durable → B.honest (book_of server.new) → B.committed (book_of server.old)
        ≡ B.history (book_of server.old) → B.committed (book_of server.new)
        ≡ B.history (book_of server.new) }
    ensures led { LeadsTo L.step link.old link.new }
{
    let Some((from, packet)) = link.receive()? else {
        return Ok(None);
    };
    let answer = handle_packet(server, packet, day);
    Ok(Some(Exchange {
        from,
        packet,
        answer,
    }))
}

// Handles the next datagram on this day if it has already arrived. Does not wait.
fn try_handle_next<B: Book, L: Link>(
    server: &mut Server<B>,
    link: &mut L,
    day: u32,
) -> Result<Option<Exchange>, LinkFault>
    ensures takes { Takes (λ before after b answer. Handles B.faults B.honest B.terms B.history
        B.committed B.clean B.may_find before after day b answer)
        (L.trace_of link.old, book_of server.old) (L.trace_of link.new, book_of server.new) result }
    ensures led { LeadsTo L.step link.old link.new }
{
    let Some((from, packet)) = link.try_receive()? else {
        return Ok(None);
    };
    let answer = handle_packet(server, packet, day);
    Ok(Some(Exchange {
        from,
        packet,
        answer,
    }))
}

fn handle_packet<B: Book>(server: &mut Server<B>, packet: Packet, day: u32) -> Answer
    ensures handles { Handles B.faults B.honest B.terms B.history B.committed B.clean B.may_find
        (book_of server.old)
        (book_of server.new) day packet result }
    ensures whole { B.durable → B.honest (book_of server.new) → B.committed (book_of server.old)
        ≡ B.history (book_of server.old) → B.committed (book_of server.new)
        ≡ B.history (book_of server.new) }
{
    server.handle(packet.bytes(), day)
}

// Handles the first datagram of a batch, if one was received, and then those that have already
// arrived, up to `most` in all. Does not wait.
pub(crate) fn handle_batch<B: Book, L: Link>(
    server: &mut Server<B>,
    link: &mut L,
    first: Result<Option<(Peer, Packet)>, LinkFault>,
    day: u32,
    most: u32,
    taken: &mut Vec<Exchange>,
) -> Result<(), LinkFault>
    requires some { 1 ≤ most }
    requires none { taken.old.items ≡ [] }
    requires room { most ≤ vec_capacity taken.old }
    ensures few { length taken.new.items ≤ most }
    ensures capacity { vec_capacity taken.new ≡ vec_capacity taken.old }
    ensures taken { (begun : Trace) → Receives begun (L.trace_of link.old) first
        → ReceivesBatch (λ before after b answer. Handles B.faults B.honest B.terms B.history
        B.committed B.clean B.may_find before after day b answer) most
        (begun, book_of server.old) (L.trace_of link.new, book_of server.new) taken.new.items
        result }
    ensures led { LeadsTo L.step link.old link.new }
{
    let Some((from, packet)) = first? else {
        return Ok(());
    };
    let answer = handle_packet(server, packet, day);
    taken.push_reserved(Exchange {
        from,
        packet,
        answer,
    });
    for _more in 1..most {
        let Some(next) = try_handle_next(server, link, day)? else {
            return Ok(());
        };
        taken.push_reserved(next);
    }
    Ok(())
}

// Returns whether a datagram has a reply.
pub(crate) fn is_reply(taken: &Exchange) -> bool
    ensures { result ≡ is_a_reply taken.now.answer }
{
    matches!(taken.answer, Answer::Reply(_))
}
