//! Turns of a server, and what is printed about them.

use crate::links::{Meets, link_of};
use s10_book::{Book, GroupCommit, LastFailure, PlainBook, TripBook};
use s10_ends::Server;
use s10_history::Settings;
use s10_jobs::{
    AtCount, ClockDays, Days, Ending, JobStatus, TurnOptions, next_day, serve_turns, today,
};
use s10_lines::WriteFault;
use s10_link::{Link, Peer};
use s10_test_help::datagrams::{DRAW, GRANT, SECOND_DRAW};
use s10_test_help::expect::holds;
use s10_test_help::hiccup::Hiccup;
use std::alloc::Global;
use std::cell::{Cell, RefCell};
use std::fmt::Display;
use std::io;
use std::io::Write;
use std::time::{Clock, Duration};

const PEER: Peer = Peer {
    ip: [10, 0, 0, 7],
    port: 4711,
};

/// A clock that always gives this time, or fails if there is none. Standard error is closed.
#[derive(Drop)]
struct Standing(Option<Duration>);

impl Clock for Standing {
    fn monotonic(&self) -> io::Result<Duration> {
        self.since_1970()
    }

    fn since_1970(&self) -> io::Result<Duration> {
        self.0.ok_or(io::Error::from(io::ErrorKind::Other))
    }
}

impl Eprint for Standing {
    fn eprint<D: Display + Drop>(&self, _value: D) -> io::Result<()> {
        Err(io::Error::from(io::ErrorKind::Other))
    }

    fn eprintln<D: Display + Drop>(&self, value: D) -> io::Result<()> {
        self.eprint(value)
    }
}

/// A standard error that keeps what is printed to it. Each reading of the clock is `step` seconds
/// after the one before, or fails if `step` is 0. The clock gives no day.
#[derive(Drop)]
pub(crate) struct Listening {
    pub(crate) told: RefCell<Vec<u8>>,
    seconds: Cell<u64>,
    step: u64,
}

impl Listening {
    pub(crate) fn new(alloc: Global, step: u64) -> Listening {
        Listening {
            told: RefCell::new(Vec::new(alloc)),
            seconds: Cell::new(0),
            step,
        }
    }
}

impl Clock for Listening {
    fn monotonic(&self) -> io::Result<Duration> {
        if self.step == 0 {
            return self.since_1970();
        }
        let now = self.seconds.get().saturating_add(self.step);
        self.seconds.set(now);
        Ok(Duration::from_secs(now))
    }

    fn since_1970(&self) -> io::Result<Duration> {
        Err(io::Error::from(io::ErrorKind::Other))
    }
}

/// Appends a value to what was printed.
fn tell<D: Display + Drop>(told: &mut Vec<u8>, value: D) -> io::Result<()> {
    write!(told, "{value}")
}

impl Eprint for Listening {
    fn eprint<D: Display + Drop>(&self, value: D) -> io::Result<()> {
        match self.told.try_borrow_mut() {
            Ok(mut told) => tell(&mut told, value),
            Err(_) => Err(io::Error::from(io::ErrorKind::Other)),
        }
    }

    fn eprintln<D: Display + Drop>(&self, value: D) -> io::Result<()> {
        match self.told.try_borrow_mut() {
            Ok(mut told) => told.writeln(value),
            Err(_) => Err(io::Error::from(io::ErrorKind::Other)),
        }
    }
}

/// Returns the options of `count` turns on this day, or on those of a clock.
fn on(count: u32, day: Option<u32>) -> TurnOptions {
    TurnOptions {
        count,
        day,
        most_days_ahead: None,
        senders: false,
    }
}

fn new_server(alloc: Global) -> Server<PlainBook> {
    Server::new(PlainBook::new(alloc, Settings::new(30, 2).unwrap()))
}

/// A request alone, nothing, a failure, and then together: bytes that are no request, a draw, its
/// repeat, and one draw more than the limit allows.
const SEVEN: &[Meets] = &[
    Meets::Bytes(PEER, GRANT),
    Meets::Nothing,
    Meets::Nothing,
    Meets::Fault,
    Meets::Bytes(PEER, b"S1"),
    Meets::Bytes(PEER, DRAW),
    Meets::Bytes(PEER, DRAW),
    Meets::Bytes(PEER, SECOND_DRAW),
];

/// Whether each reply to them is sent.
const THREE_SENDS: &[bool] = &[true, false, true];

const SEVEN_LINES: &[u8] =
    b"replied 533101810000000000000001000000075241474200000000000000020000000001
quiet
link receive
dropped short
link send
replied 533101820000000700000001524147420000004e2052413030303030303030354742
faulted full
";

/// Returns the first `count` lines of a text.
fn first_lines(text: &[u8], count: u32) -> &[u8] {
    let mut left = count;
    for (at, byte) in text.iter().enumerate() {
        if left == 0 {
            return &text[..at];
        }
        if *byte == b'\n' {
            left -= 1;
        }
    }
    text
}

/// A writer that counts how often it is flushed after a whole line.
#[derive(Drop)]
struct Flushed {
    bytes: Vec<u8>,
    lines: u32,
}

impl Write for Flushed {
    fn write(&mut self, buf: &[u8]) -> io::Result<usize> {
        self.bytes.write(buf)
    }

    fn flush(&mut self) -> io::Result<()> {
        if self.bytes.ends_with(b"\n") {
            self.lines = self.lines.saturating_add(1);
        }
        Ok(())
    }
}

/// A script of a link, and what is expected of the turns over it.
#[derive(Clone, Copy)]
struct Turns<'a> {
    /// What each receive gives.
    receipts: &'a [Meets],
    /// Whether each send succeeds.
    sends: &'a [bool],
    /// The number of turns.
    count: u32,
    /// The day, or `None` for that of the clock.
    day: Option<u32>,
    status: JobStatus,
    /// What is printed.
    lines: &'a [u8],
    /// How often whole lines are flushed.
    flushed: u32,
    /// The number of calls of the book at the end.
    calls: u32,
}

/// Returns whether the writer has received and flushed the lines of the turns.
fn has_lines(out: Flushed, turns: &Turns<'_>) -> bool {
    out.bytes.as_slice() == turns.lines && out.lines == turns.flushed
}

/// Returns whether the turns of a server over the link have their status, and write and flush their
/// lines.
fn are_as_expected<R: Clock + Eprint, B: GroupCommit + LastFailure, L: Link>(
    rt: &R,
    alloc: Global,
    server: &mut Server<B>,
    link: &mut L,
    turns: &Turns<'_>,
) -> bool {
    let mut out = Flushed {
        bytes: Vec::new(alloc),
        lines: 0,
    };
    let mut days = ClockDays { clock: rt };
    let served = serve_turns(
        rt,
        alloc,
        server,
        link,
        &mut days,
        &mut AtCount,
        on(turns.count, turns.day),
        &mut out,
    );
    has_lines(out, turns) && served == Ok(turns.status)
}

/// Returns whether the turns of a new server are as expected.
fn are_served<R: Clock + Eprint>(rt: &R, alloc: Global, turns: &Turns<'_>) -> bool {
    let Ok(mut link) = link_of(alloc, turns.receipts, turns.sends) else {
        return false;
    };
    let mut server = new_server(alloc);
    are_as_expected(rt, alloc, &mut server, &mut link, turns) && server.book().len() == turns.calls
}

/// Returns `count` turns over the link of `SEVEN`, with the first of the lines, in `batches`
/// batches, which leave `calls` calls.
fn first_turns(count: u32, batches: u32, calls: u32) -> Turns<'static> {
    Turns {
        receipts: SEVEN,
        sends: THREE_SENDS,
        count,
        day: Some(20_000),
        status: JobStatus::Done,
        lines: first_lines(SEVEN_LINES, count),
        flushed: batches,
        calls,
    }
}

/// Number of turns, of their batches, and of the calls of the book after them. The first turn is a
/// grant, and the fifth is a draw whose reply is not sent. The last four arrive together.
const TURNS: &[(u32, u32, u32)] = &[
    (0, 0, 0),
    (1, 1, 1),
    (2, 2, 1),
    (3, 3, 1),
    (4, 4, 1),
    (5, 4, 2),
    (6, 4, 2),
    (7, 4, 2),
];

#[test]
fn each_turn_has_its_line(rt: HostRuntime) {
    for (count, batches, calls) in TURNS {
        let turns = first_turns(*count, *batches, *calls);
        assert!(rt; holds(&rt, count, are_served(&rt, rt.alloc(), &turns)));
    }
}

/// A grant and a draw in one batch, on the day of a clock.
const TWO_TURNS: Turns<'static> = Turns {
    receipts: &[Meets::Bytes(PEER, GRANT), Meets::Bytes(PEER, DRAW)],
    sends: &[true, true],
    count: 2,
    day: None,
    status: JobStatus::Done,
    lines: b"replied 533101810000000000000001000000075241474200000000000000020000000001
replied 533101820000000700000001524147420000004e2052413030303030303030354742
",
    flushed: 1,
    calls: 2,
};

#[test]
fn the_clock_gives_the_day_if_none_is_given(rt: HostRuntime) {
    // The last second of day 20000.
    let clock = Standing(Some(Duration::from_secs(20_001 * 86_400 - 1)));
    assert!(rt; are_served(&clock, rt.alloc(), &TWO_TURNS));
}

/// The sender of datagrams that are no requests.
const OTHER: Peer = Peer {
    ip: [10, 0, 0, 8],
    port: 40_123,
};

/// Nothing, then datagrams of two senders: three are no requests, one is a grant, and a receive
/// fails before the last.
const THREE_DROPPED: &[Meets] = &[
    Meets::Nothing,
    Meets::Bytes(OTHER, b"S1"),
    Meets::Bytes(PEER, GRANT),
    Meets::Bytes(PEER, b""),
    Meets::Fault,
    Meets::Bytes(OTHER, b"S1"),
];

const SIX_LINES: &[u8] = b"quiet
dropped short
replied 533101810000000000000001000000075241474200000000000000020000000001
dropped short
link receive
dropped short
";

/// The first line of standard error over a new ledger.
const START: &[u8] = b"calls 0 of 2, last day 0, today 20000\n";

/// Returns whether standard error shows `START`, and then this text.
fn has_told(rt: Listening, told: &str) -> bool {
    let shown = rt.told.into_inner();
    match shown.as_slice().strip_prefix(START) {
        Some(rest) => rest == told.as_bytes(),
        None => false,
    }
}

/// Returns whether `count` turns over the link of `THREE_DROPPED` have the first of the lines, and
/// standard error has this text.
fn are_reported(alloc: Global, count: u32, batches: u32, told: &str) -> bool {
    let rt = Listening::new(alloc, 0);
    let turns = Turns {
        receipts: THREE_DROPPED,
        sends: &[true],
        count,
        day: Some(20_000),
        status: JobStatus::Done,
        lines: first_lines(SIX_LINES, count),
        flushed: batches,
        calls: if count < 3 { 0 } else { 1 },
    };
    are_served(&rt, alloc, &turns) && has_told(rt, told)
}

/// Number of turns, of their batches, and what standard error shows.
const REPORTED: &[(u32, u32, &str)] = &[
    (1, 1, ""),
    (2, 2, "dropped from 10.0.0.8:40123\n"),
    (3, 2, "dropped from 10.0.0.8:40123\n"),
    (4, 2, "dropped 2 datagrams, the last from 10.0.0.7:4711\n"),
    (
        6,
        3,
        "dropped 2 datagrams, the last from 10.0.0.7:4711\ndropped from 10.0.0.8:40123\n",
    ),
];

#[test]
fn senders_of_dropped_datagrams_go_to_standard_error(rt: HostRuntime) {
    for (count, batches, told) in REPORTED {
        assert!(rt; holds(&rt, count, are_reported(rt.alloc(), *count, *batches, told)));
    }
}

/// Four datagrams that are no requests, each in a batch of its own.
const FOUR_DROPPED: Turns<'static> = Turns {
    receipts: &[
        Meets::Bytes(OTHER, b"S1"),
        Meets::Nothing,
        Meets::Bytes(OTHER, b"S1"),
        Meets::Nothing,
        Meets::Bytes(PEER, b"S1"),
        Meets::Nothing,
        Meets::Bytes(OTHER, b"S1"),
        Meets::Nothing,
    ],
    sends: &[],
    count: 4,
    day: Some(20_000),
    status: JobStatus::Done,
    lines: b"dropped short\ndropped short\ndropped short\ndropped short\n",
    flushed: 4,
    calls: 0,
};

/// Returns whether standard error has this text after these turns, if each reading of the clock is
/// `step` seconds after the one before.
fn are_named_by(alloc: Global, step: u64, told: &str) -> bool {
    let rt = Listening::new(alloc, step);
    are_served(&rt, alloc, &FOUR_DROPPED) && has_told(rt, told)
}

/// Seconds between two readings of the clock, and what standard error shows. The clock is read
/// after each line, and before each later batch whose datagrams might be named.
const NAMED: &[(u64, &str)] = &[
    (
        1,
        "dropped from 10.0.0.8:40123\ndropped 3 datagrams, the last from 10.0.0.8:40123\n",
    ),
    (
        59,
        "dropped from 10.0.0.8:40123\ndropped 2 datagrams, the last from 10.0.0.7:4711\ndropped from 10.0.0.8:40123\n",
    ),
    (
        60,
        "dropped from 10.0.0.8:40123\ndropped from 10.0.0.8:40123\ndropped from 10.0.0.7:4711\ndropped from 10.0.0.8:40123\n",
    ),
];

#[test]
fn a_sender_is_named_once_in_a_minute(rt: HostRuntime) {
    for (step, told) in NAMED {
        assert!(rt; holds(&rt, step, are_named_by(rt.alloc(), *step, told)));
    }
}

/// Returns whether standard error shows this over seven turns of a server, the call `at` of whose
/// book fails.
fn is_shown_of_a_failure(alloc: Global, at: u64, told: &str) -> bool {
    let Ok(mut link) = link_of(alloc, SEVEN, THREE_SENDS) else {
        return false;
    };
    let book = PlainBook::new(alloc, Settings::new(30, 2).unwrap());
    let mut server = Server::new(TripBook::new(book, at));
    let rt = Listening::new(alloc, 1);
    let mut days = ClockDays { clock: &rt };
    let mut out = Vec::new(alloc);
    let served = serve_turns(
        &rt,
        alloc,
        &mut server,
        &mut link,
        &mut days,
        &mut AtCount,
        on(7, Some(20_000)),
        &mut out,
    );
    served == Ok(JobStatus::Done) && has_told(rt, told)
}

/// The call of the book that fails, and what standard error shows. The first call reads for the
/// first turn; the datagram that is dropped comes later.
const FAILURES: &[(u64, &str)] = &[
    (
        0,
        "cannot use the ledger: store\ndropped from 10.0.0.7:4711\n99 of 100 calls of the limit are kept: 2 of 2\n",
    ),
    (
        1_000,
        "dropped from 10.0.0.7:4711\n99 of 100 calls of the limit are kept: 2 of 2\n",
    ),
];

#[test]
fn a_failure_of_the_book_is_named_once(rt: HostRuntime) {
    for (at, told) in FAILURES {
        assert!(rt; holds(&rt, at, is_shown_of_a_failure(rt.alloc(), *at, told)));
    }
}

#[test]
fn a_closed_standard_error_ends_no_turn(rt: HostRuntime) {
    assert!(rt; are_served(&Standing(None), rt.alloc(), &first_turns(7, 4, 2)));
}

/// Turns for which no day is given, and no clock gives one.
const DAYLESS: Turns<'static> = Turns {
    receipts: SEVEN,
    sends: &[],
    count: 3,
    day: None,
    status: JobStatus::Failed,
    lines: b"clock\n",
    flushed: 0,
    calls: 0,
};

#[test]
fn a_clock_that_gives_no_day_ends_the_turns(rt: HostRuntime) {
    assert!(rt; are_served(&Standing(None), rt.alloc(), &DAYLESS));
}

/// A source that gives day 20,000 this many times, and then none.
#[derive(Drop)]
struct RunsOut {
    left: u32,
}

impl Days for RunsOut {
    ghost use Rattle.std.specs.Prelude.{⊤};

    ghost gives = { λ old answer new. ⊤ };

    fn next(&mut self) -> Option<u32> {
        self.left = self.left.checked_sub(1)?;
        Some(20_000)
    }
}

/// Returns whether standard error has this text if no day is left after `batches` batches of
/// dropped datagrams.
fn are_named_at_the_end(alloc: Global, batches: u32, told: &str) -> bool {
    let rt = Listening::new(alloc, 0);
    let Ok(mut link) = link_of(alloc, FOUR_DROPPED.receipts, &[]) else {
        return false;
    };
    let mut server = new_server(alloc);
    let mut days = RunsOut { left: batches };
    let served = serve_turns(
        &rt,
        alloc,
        &mut server,
        &mut link,
        &mut days,
        &mut AtCount,
        on(4, None),
        &mut Vec::new(alloc),
    );
    served == Ok(JobStatus::Failed) && has_told(rt, told)
}

/// The number of batches before the source gives no day, and what standard error shows.
const NAMED_AT_THE_END: &[(u32, &str)] = &[
    (1, "dropped from 10.0.0.8:40123\n"),
    (
        2,
        "dropped from 10.0.0.8:40123\ndropped from 10.0.0.8:40123\n",
    ),
    (
        3,
        "dropped from 10.0.0.8:40123\ndropped 2 datagrams, the last from 10.0.0.7:4711\n",
    ),
];

#[test]
fn dropped_datagrams_are_named_before_an_end_by_the_clock(rt: HostRuntime) {
    for (batches, told) in NAMED_AT_THE_END {
        assert!(rt;
            holds(
                &rt,
                batches,
                are_named_at_the_end(rt.alloc(), *batches, told)
            )
        );
    }
}

/// Returns whether this is the day of a clock `seconds` after 1970 began, if no day is given.
fn is_day_after(seconds: u64, day: Option<u32>) -> bool {
    let clock = Standing(Some(Duration::from_secs(seconds)));
    let mut days = ClockDays { clock: &clock };
    today(&clock) == day
        && next_day(&mut days, None) == day
        && next_day(&mut days, Some(7)) == Some(7)
}

/// A clock that is a day further at each reading of the time of day. Its monotonic time is another
/// number.
#[derive(Drop)]
struct Stepping {
    day: RefCell<u64>,
}

impl Clock for Stepping {
    fn monotonic(&self) -> io::Result<Duration> {
        Ok(Duration::from_secs(7))
    }

    fn since_1970(&self) -> io::Result<Duration> {
        let Ok(mut day) = self.day.try_borrow_mut() else {
            return Err(io::Error::from(io::ErrorKind::Other));
        };
        let seconds = day.saturating_mul(86_400);
        *day = day.saturating_add(1);
        Ok(Duration::from_secs(seconds))
    }
}

/// Returns whether the last call of seven turns in four batches has the day of the fourth reading
/// of a clock, the first of which gives day 20,000.
fn has_the_day_of_its_batch<R: Clock + Eprint>(rt: &R, alloc: Global) -> bool {
    let Ok(mut link) = link_of(alloc, SEVEN, THREE_SENDS) else {
        return false;
    };
    let clock = Stepping {
        day: RefCell::new(20_000),
    };
    let mut days = ClockDays { clock: &clock };
    let mut server = new_server(alloc);
    let mut out = Vec::new(alloc);
    let served = serve_turns(
        rt,
        alloc,
        &mut server,
        &mut link,
        &mut days,
        &mut AtCount,
        on(7, None),
        &mut out,
    );
    served == Ok(JobStatus::Done) && server.book().day() == 20_003 && days.next() == Some(20_004)
}

#[test]
fn each_batch_reads_the_day_once(rt: HostRuntime) {
    assert!(rt; has_the_day_of_its_batch(&rt, rt.alloc()));
}

/// A source of ends that says so from the batch `at` on, counted from 0. It counts how often it was
/// asked.
#[derive(Drop)]
struct AtBatch {
    at: u32,
    asked: u32,
}

impl Ending for AtBatch {
    ghost use Rattle.std.specs.Prelude.{⊤};

    ghost says = { λ old answer new. ⊤ };

    fn is_due(&mut self) -> bool {
        let is_due = self.asked >= self.at;
        self.asked = self.asked.saturating_add(1);
        is_due
    }
}

/// Returns whether turns that end at the batch `at` print the first `lines` lines, and ask the source
/// of ends `asked` times.
fn ends_at_batch<R: Clock + Eprint>(
    rt: &R,
    alloc: Global,
    at: u32,
    lines: u32,
    asked: u32,
) -> bool {
    let Ok(mut link) = link_of(alloc, SEVEN, THREE_SENDS) else {
        return false;
    };
    let mut days = ClockDays { clock: rt };
    let mut ends = AtBatch { at, asked: 0 };
    let mut server = new_server(alloc);
    let mut out = Vec::new(alloc);
    let served = serve_turns(
        rt,
        alloc,
        &mut server,
        &mut link,
        &mut days,
        &mut ends,
        on(7, Some(20_000)),
        &mut out,
    );
    served == Ok(JobStatus::Done)
        && out.as_slice() == first_lines(SEVEN_LINES, lines)
        && ends.asked == asked
}

/// The batch at which the turns end, the lines printed, and how often the source was asked. The
/// fourth batch has the last four of the seven turns.
const ENDS: &[(u32, u32, u32)] = &[
    (0, 0, 1),
    (1, 1, 2),
    (2, 2, 3),
    (3, 3, 4),
    (4, 7, 4),
    (9, 7, 4),
];

#[test]
fn turns_end_before_a_batch_if_they_are_due(rt: HostRuntime) {
    for (at, lines, asked) in ENDS {
        assert!(rt; holds(&rt, at, ends_at_batch(&rt, rt.alloc(), *at, *lines, *asked)));
    }
}

/// Seconds since 1970 began, and the day.
const DAYS: &[(u64, Option<u32>)] = &[
    (0, Some(0)),
    (86_399, Some(0)),
    (86_400, Some(1)),
    (1_728_000_000, Some(20_000)),
    (4_294_967_296 * 86_400 - 1, Some(u32::MAX)),
    (4_294_967_296 * 86_400, None),
];

#[test]
fn days_are_whole_days_since_1970(rt: HostRuntime) {
    for (seconds, day) in DAYS {
        assert!(rt; holds(&rt, seconds, is_day_after(*seconds, *day)));
    }
    let clock = Standing(None);
    let mut days = ClockDays { clock: &clock };
    assert!(rt; today(&clock).is_none() && next_day(&mut days, Some(7)) == Some(7));
    assert!(rt; today(&rt).is_some());
}

/// Returns whether the writer has exactly the first `room` bytes of the lines.
fn has_beginning(out: Hiccup, room: usize) -> bool {
    out.bytes.len() == room && SEVEN_LINES.starts_with(out.bytes.as_slice())
}

/// Returns whether the turns of a server fail at a line that cannot be written whole. The writer
/// must have exactly the first `room` bytes of the lines then.
fn end_where_unwritten<R: Clock + Eprint, B: GroupCommit + LastFailure, L: Link>(
    alloc: Global,
    rt: &R,
    server: &mut Server<B>,
    link: &mut L,
    room: usize,
) -> bool {
    let mut out = Hiccup::new(alloc, room);
    let mut days = ClockDays { clock: rt };
    let served = serve_turns(
        rt,
        alloc,
        server,
        link,
        &mut days,
        &mut AtCount,
        on(7, Some(20_000)),
        &mut out,
    );
    has_beginning(out, room) && served == Err(WriteFault)
}

/// Returns whether the turns end at a line that cannot be written whole. The book must have the
/// calls up to the end of the batch of that line.
fn ends_unwritten<R: Clock + Eprint>(alloc: Global, rt: &R, room: usize) -> bool {
    let Ok(mut link) = link_of(alloc, SEVEN, THREE_SENDS) else {
        return false;
    };
    let mut server = new_server(alloc);
    let ends = end_where_unwritten(alloc, rt, &mut server, &mut link, room);
    let is_early = room < first_lines(SEVEN_LINES, 3).len();
    ends && server.book().len() == if is_early { 1 } else { 2 }
}

#[test]
fn a_writer_that_fails_ends_the_turns(rt: HostRuntime) {
    for room in 0..SEVEN_LINES.len() {
        assert!(rt; holds(&rt, &room, ends_unwritten(rt.alloc(), &rt, room)));
    }
}
