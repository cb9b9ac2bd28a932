//! Turns whose days must not be too far past the last day of the ledger.

use crate::jobs::turns::Listening;
use crate::links::{Meets, link_of};
use s10_book::{Book, PlainBook};
use s10_ends::Server;
use s10_history::Settings;
use s10_jobs::{AtCount, Days, JobStatus, TurnOptions, serve_turns};
use s10_link::{Peer, ScriptLink};
use s10_test_help::datagrams::{DRAW, GRANT};
use s10_test_help::expect::holds;
use std::alloc::Global;

const PEER: Peer = Peer {
    ip: [10, 0, 0, 7],
    port: 4711,
};

/// A grant and a draw, each in a batch of its own.
const TWO: &[Meets] = &[
    Meets::Bytes(PEER, GRANT),
    Meets::Nothing,
    Meets::Bytes(PEER, DRAW),
];

/// The same, each at once.
const TOGETHER: &[Meets] = &[Meets::Bytes(PEER, GRANT), Meets::Bytes(PEER, DRAW)];

/// A source that gives these days, one after another, and then none.
#[derive(Drop)]
pub(crate) struct Listed<'a> {
    pub(crate) days: &'a [u32],
}

impl Days for Listed<'_> {
    ghost use Rattle.std.specs.Prelude.{⊤};

    ghost gives = { λ old answer new. ⊤ };

    fn next(&mut self) -> Option<u32> {
        let (first, rest) = self.days.split_first()?;
        self.days = rest;
        Some(*first)
    }
}

/// Two turns on the days of a source, and what they come to.
#[derive(Clone, Copy)]
struct Guarded<'a> {
    most_days_ahead: Option<u32>,
    days: &'a [u32],
    status: JobStatus,
    /// The number of calls after them.
    calls: u32,
    /// The end of what standard error shows.
    told: &'a str,
}

/// Returns whether the turns of a server over the link come to this.
fn come_to(
    alloc: Global,
    server: &mut Server<PlainBook>,
    link: &mut ScriptLink,
    guarded: &Guarded<'_>,
) -> bool {
    let rt = Listening::new(alloc, 0);
    let mut days = Listed { days: guarded.days };
    let mut out = Vec::new(alloc);
    let options = TurnOptions {
        count: 2,
        day: None,
        most_days_ahead: guarded.most_days_ahead,
        senders: false,
    };
    let served = serve_turns(
        &rt,
        alloc,
        server,
        link,
        &mut days,
        &mut AtCount,
        options,
        &mut out,
    );
    let has_line = out.ends_with(b"clock\n") == (guarded.status == JobStatus::Failed);
    let has_told = rt.told.into_inner().ends_with(guarded.told.as_bytes());
    has_line && has_told && served == Ok(guarded.status) && server.book().len() == guarded.calls
}

/// Returns whether the turns of a new server come to this.
fn is_guarded(alloc: Global, guarded: &Guarded<'_>) -> bool {
    let Ok(mut link) = link_of(alloc, TWO, &[true, true]) else {
        return false;
    };
    let mut server = Server::new(PlainBook::new(alloc, Settings::new(30, 2).unwrap()));
    come_to(alloc, &mut server, &mut link, guarded)
}

/// Returns two turns that are both served.
fn both(most_days_ahead: Option<u32>, days: &[u32]) -> Guarded<'_> {
    Guarded {
        most_days_ahead,
        days,
        status: JobStatus::Done,
        calls: 2,
        told: "99 of 100 calls of the limit are kept: 2 of 2\n",
    }
}

/// The guard and the two days.
const BOTH: &[(Option<u32>, &[u32])] = &[
    (Some(30), &[20_000, 20_030]),
    (Some(30), &[20_000, 7]),
    (Some(30), &[u32::MAX, u32::MAX]),
    (Some(0), &[20_000, 20_000]),
    (Some(u32::MAX), &[0, u32::MAX]),
    (None, &[20_000, u32::MAX]),
];

#[test]
fn a_day_within_the_guard_is_served(rt: HostRuntime) {
    for (most, days) in BOTH {
        assert!(rt; holds(&rt, &days[1], is_guarded(rt.alloc(), &both(*most, *days))));
    }
}

const REFUSED: &[Guarded<'static>] = &[
    Guarded {
        most_days_ahead: Some(30),
        days: &[20_000, 20_031],
        status: JobStatus::Failed,
        calls: 1,
        told: "the clock gives day 20031, too far past the last day of the ledger, 20000\n",
    },
    Guarded {
        most_days_ahead: Some(0),
        days: &[0, u32::MAX],
        status: JobStatus::Failed,
        calls: 1,
        told: "the clock gives day 4294967295, too far past the last day of the ledger, 0\n",
    },
];

#[test]
fn a_day_past_the_guard_ends_the_turns(rt: HostRuntime) {
    for guarded in REFUSED {
        assert!(rt; holds(&rt, &guarded.days[1], is_guarded(rt.alloc(), guarded)));
    }
}

/// Returns whether one more turn on this given day is served, past a guard of no day.
fn is_served_on(
    alloc: Global,
    server: &mut Server<PlainBook>,
    link: &mut ScriptLink,
    day: u32,
) -> bool {
    let rt = Listening::new(alloc, 0);
    let mut days = Listed { days: &[] };
    let mut out = Vec::new(alloc);
    let options = TurnOptions {
        count: 1,
        day: Some(day),
        most_days_ahead: Some(0),
        senders: false,
    };
    let served = serve_turns(
        &rt,
        alloc,
        server,
        link,
        &mut days,
        &mut AtCount,
        options,
        &mut out,
    );
    served == Ok(JobStatus::Done) && server.book().day() == day
}

#[test]
fn a_given_day_has_no_guard(rt: HostRuntime) {
    let Ok(mut link) = link_of(rt.alloc(), TOGETHER, &[true, true]) else {
        panic!(rt; "no link");
    };
    let mut server = Server::new(PlainBook::new(rt.alloc(), Settings::new(30, 2).unwrap()));
    assert!(rt; is_served_on(rt.alloc(), &mut server, &mut link, 20_000));
    assert!(rt; is_served_on(rt.alloc(), &mut server, &mut link, 20_031));
}
