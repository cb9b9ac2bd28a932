//! A world that is refused memory.

use crate::ends::fixtures::{empty_book, have_one_history};
use crate::ends::story::{EVENTS, events_of, new_world};
use s10_book::{Book, PlainBook};
use s10_test_help::story::STORY;
use s10_world::{Event, World, WorldFault};
use std::alloc::{AllocError, Global};

// Returns whether two worlds have the same lists of requests and replies.
fn have_equal_lists<B: Book>(one: &World<B>, other: &World<B>) -> bool {
    one.submitted() == other.submitted()
        && one.accepted() == other.accepted()
        && one.replied() == other.replied()
}

// Returns the world after these events, without the event at index `left_out` if one is named.
fn world_without(
    alloc: Global,
    events: &[Event],
    left_out: Option<usize>,
) -> Result<World<PlainBook>, AllocError> {
    let mut world = new_world(alloc, empty_book(alloc, 100))?;
    for (place, event) in events.iter().enumerate() {
        if left_out != Some(place) {
            let Ok(()) = world.run(&[*event]) else {
                return Err(AllocError);
            };
        }
    }
    Ok(world)
}

// Returns the world that equals this one: after all of these events, or without one delivery.
fn equal_world(
    alloc: Global,
    world: &World<PlainBook>,
    events: &[Event],
) -> Result<Option<World<PlainBook>>, AllocError> {
    let whole = world_without(alloc, events, None)?;
    if have_equal_lists(world, &whole) {
        return Ok(Some(whole));
    }
    for (place, event) in events.iter().enumerate() {
        if matches!(event, Event::ToServer { .. }) {
            let other = world_without(alloc, events, Some(place))?;
            if have_equal_lists(world, &other) {
                return Ok(Some(other));
            }
        }
    }
    Ok(None)
}

fn end_with_equal_histories<B: Book + Drop>(one: World<B>, other: World<B>) -> bool {
    let mut book = one.into_server().into_book();
    let mut same = other.into_server().into_book();
    have_one_history(&mut book, &mut same)
}

// Returns whether a world has the history of the one that equals it, or `None` if none does. Lack
// of memory for the comparison counts as equal.
fn has_its_history(alloc: Global, world: World<PlainBook>, events: &[Event]) -> Option<bool> {
    match equal_world(alloc, &world, events) {
        Ok(Some(other)) => Some(end_with_equal_histories(world, other)),
        Ok(None) => None,
        Err(_) => Some(true),
    }
}

// checks/refused_memory.sh refuses each request for memory in turn; without it none is refused. If
// an event is refused memory, it and those after it have no effect. If the book is refused memory
// for a delivery, the delivery counts as lost.
#[test]
fn a_refused_request_for_memory_leaves_a_run_of_the_other_events(rt: HostRuntime) {
    let events = events_of(STORY);
    let Ok(mut world) = new_world(rt.alloc(), empty_book(rt.alloc(), 100)) else {
        return;
    };
    let done = match world.run(&events[..EVENTS]) {
        Ok(()) => EVENTS,
        Err(WorldFault::Memory(place)) => place,
    };
    let has_history = has_its_history(rt.alloc(), world, &events[..done]);
    assert!(rt;
        has_history.is_some(),
        "no list of deliveries gives this world"
    );
    assert!(rt; has_history == Some(true));
}
