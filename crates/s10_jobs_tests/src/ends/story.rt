//! The worlds that a story of three clients happens in.

ghost use Rattle.std.specs.Prelude.{◌≡◌, IfOk, All, length};
ghost use Rattle.s10_ends.specs.Client.{IsNew};

use s10_book::Book;
use s10_ends::{Client, Server};
use s10_link::Packet;
use s10_test_help::story::Happens;
use s10_world::{Event, World};
use std::alloc::{AllocError, Global};

/// The number of events in the story.
pub const EVENTS: usize = 18;

/// The greatest number of events of a story.
const MOST: usize = 25;

fn event(happens: Happens) -> Event {
    match happens {
        Happens::Submit(client, asked) => Event::Submit {
            client,
            body: asked.body(),
        },
        Happens::Resend(client) => Event::Resend { client },
        Happens::GiveUp(client) => Event::GiveUp { client },
        Happens::ToServer(index, day) => Event::ToServer { index, day },
        Happens::Strange(bytes, day) => Event::Strange {
            packet: Packet::new(bytes),
            day,
        },
        Happens::ToClient(client, index) => Event::ToClient { client, index },
    }
}

/// Returns the events of a story, followed by others up to the full length.
pub(crate) fn events_of(story: &[Happens]) -> [Event; MOST] {
    let mut events = [Event::Resend { client: 0 }; MOST];
    for at in 0..story.len().min(MOST) {
        events[at] = event(story[at]);
    }
    events
}

fn three_clients(alloc: Global) -> Result<Vec<Client>, AllocError>
    ensures new { IfOk result (λ clients. All IsNew clients.items) }
    ensures three { IfOk result (λ clients. length clients.items ≡ 3) }
{
    let mut clients = Vec::new(alloc);
    clients.push(Client::new(0, 1, 9).unwrap())?;
    clients.push(Client::new(7, 1, 9).unwrap())?;
    clients.push(Client::new(7, 10, 19).unwrap())?;
    Ok(clients)
}

/// Returns the world of the three clients and a server over this book, before any event.
///
/// # Errors
///
/// `AllocError` if the world cannot be allocated.
pub(crate) fn new_world<B: Book + Drop>(alloc: Global, book: B) -> Result<World<B>, AllocError> {
    let clients = three_clients(alloc)?;
    Ok(World::new(alloc, Server::new(book), clients))
}

/// Returns the world of this book after the story, or `None` if memory is refused.
pub(crate) fn world_after<B: Book + Drop>(
    alloc: Global,
    book: B,
    story: &[Happens],
) -> Option<World<B>> {
    let mut world = new_world(alloc, book).ok()?;
    let events = events_of(story);
    match world.run(&events[..story.len().min(MOST)]) {
        Ok(()) => Some(world),
        Err(_) => None,
    }
}
