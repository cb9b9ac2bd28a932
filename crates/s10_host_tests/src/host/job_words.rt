//! The jobs that command lines ask for.

use crate::host::command_lines::{prints, status_of};
use crate::host::job_words::Subcommand::{
    Again, Audit, Create, Draw, Grant, Loop, Notes, Query, Report, Serve, Void, Withdraw,
};
use crate::host::wanted_job::{
    WantedBody, WantedCall, WantedFilter, WantedGrant, WantedJob, WantedReport, WantedServer,
};
use s10_cli::{LineEnd, run_line};
use s10_jobs::{Job, ReportKind, TurnOptions};
use s10_reports::{RangeFilter, ReportFormat};
use s10_test_help::expect::{holds, same};
use s10_test_help::samples::id;
use s10_test_help::words::Words;
use std::alloc::Global;
use std::process::Abort;

/// A command line, and the job that it asks for.
type Line = (&'static str, WantedJob);

const TURNS: TurnOptions = TurnOptions {
    count: 4294967295,
    day: None,
    most_days_ahead: None,
    senders: false,
};

const SERVE: WantedServer = WantedServer {
    ledger: "a.db",
    bind: "0.0.0.0:0",
    options: TURNS,
    until: None,
};

const RANGE: WantedGrant = WantedGrant {
    holder: 7,
    service: "RA",
    country: "GB",
    first: 0,
    last: 2,
};

const GRANT: WantedCall = WantedCall {
    to: "127.0.0.1:4711",
    customer: 0,
    number: 1,
    body: WantedBody::Grant(RANGE),
    tries: 5,
};

const DRAW: WantedCall = WantedCall {
    customer: 7,
    body: WantedBody::Draw("RA", "GB"),
    ..GRANT
};

const VOID: WantedCall = WantedCall {
    number: 3,
    body: WantedBody::Void("RA000000005GB"),
    ..DRAW
};

const QUERY: WantedCall = WantedCall {
    number: 4,
    body: WantedBody::Query("RA000000005GB"),
    ..DRAW
};

const WITHDRAW: WantedCall = WantedCall {
    number: 5,
    body: WantedBody::Withdraw(1),
    ..GRANT
};

/// A filter that admits all.
const ALL: WantedFilter = WantedFilter {
    customer: None,
    range: None,
    from_day: None,
    to_day: None,
};

/// The report of all ranges.
const RANGES: WantedReport = WantedReport::Ranges(ALL, ReportFormat::Lines);

/// The report of all issues.
const ISSUES: WantedReport = WantedReport::Issues(ALL, ReportFormat::Lines);

/// Each subcommand of the program, with its required options only.
const LINES: &[Line] = &[
    (
        "s10 create --ledger a.db --interval 30 --limit 100",
        WantedJob::Create("a.db", 30, 100),
    ),
    (
        "s10 serve --ledger a.db --bind 0.0.0.0:0",
        WantedJob::Serve(SERVE),
    ),
    (
        "s10 grant --to 127.0.0.1:4711 --number 1 --holder 7 --service RA --country GB --first 0 --last 2",
        WantedJob::Ask(GRANT),
    ),
    (
        "s10 draw --to 127.0.0.1:4711 --customer 7 --number 1 --service RA --country GB",
        WantedJob::Ask(DRAW),
    ),
    (
        "s10 void --to 127.0.0.1:4711 --customer 7 --number 3 --id RA000000005GB",
        WantedJob::Ask(VOID),
    ),
    (
        "s10 query --to 127.0.0.1:4711 --customer 7 --number 4 --id RA000000005GB",
        WantedJob::Ask(QUERY),
    ),
    (
        "s10 withdraw --to 127.0.0.1:4711 --number 5 --range 1",
        WantedJob::Ask(WITHDRAW),
    ),
    (
        "s10 notes --file a.notes --customer 7 --first 1 --last 999999",
        WantedJob::Notes("a.notes", 7, 1, 999999),
    ),
    (
        "s10 again --to 127.0.0.1:4711 --notes a.notes",
        WantedJob::Again("127.0.0.1:4711", "a.notes", 5),
    ),
    (
        "s10 report --ledger a.db",
        WantedJob::Report("a.db", RANGES, None),
    ),
    ("s10 audit --ledger a.db", WantedJob::Audit("a.db")),
    ("s10 loop", WantedJob::Loop(None)),
];

/// Returns `LINES`.
fn lines() -> &'static [Line] {
    LINES
}

/// The subcommands, in the order of `LINES`.
#[derive(Clone, Copy, Debug)]
enum Subcommand {
    Create,
    Serve,
    Grant,
    Draw,
    Void,
    Query,
    Withdraw,
    Notes,
    Again,
    Report,
    Audit,
    Loop,
}

/// Returns the line of a subcommand.
fn line_of(subcommand: Subcommand) -> Option<&'static Line> {
    lines().get(subcommand as usize)
}

/// Returns the job that the words ask for, or `None` if they ask for none.
pub(crate) fn job_of<'a, R: Eprint + AllocGlobal>(rt: &R, words: &'a [&str]) -> Option<Job<'a>> {
    let mut input: &[u8] = b"";
    let mut output = Vec::new(rt.alloc());
    match run_line(rt, words, &mut input, &mut output) {
        LineEnd::Asks(job) => Some(job),
        LineEnd::Ended(_) => None,
    }
}

/// Asserts that each line asks for its job.
fn ask_as_wanted<R: Eprint + AllocGlobal + Abort>(rt: &R, lines: &[Line]) {
    for (line, wanted) in lines {
        let words = Words::of(line);
        assert!(rt; same(rt, line, &job_of(rt, words.as_slice()), &wanted.job()));
    }
}

/// Returns whether a command line has this status and prints nothing. A status of `None` means that
/// the line is left to the program.
fn is_silent<R: Eprint + AllocGlobal>(rt: &R, words: &[&str], status: Option<u8>) -> bool {
    let mut input: &[u8] = b"";
    prints(rt, words, &mut input, status, "")
}

#[test]
fn jobs_over_files_or_sockets_are_left_to_the_program(rt: HostRuntime) {
    for (line, _) in lines() {
        let words = Words::of(line);
        assert!(rt; holds(&rt, line, is_silent(&rt, words.as_slice(), None)));
    }
    ask_as_wanted(&rt, lines());
}

const OPTIONS: &[Line] = &[
    (
        "s10 draw --count 16 --to 127.0.0.1:4711 --customer 7 --number 1 --service RA --country GB",
        WantedJob::Ask(WantedCall {
            body: WantedBody::DrawMany("RA", "GB", 16),
            ..DRAW
        }),
    ),
    (
        "s10 serve --day 4294967295 --count=4294967295 --bind '' --ledger ''",
        WantedJob::Serve(WantedServer {
            ledger: "",
            bind: "",
            options: TurnOptions {
                day: Some(4294967295),
                ..TURNS
            },
            ..SERVE
        }),
    ),
    (
        "s10 draw --notes a.notes --to 127.0.0.1:4711 --service RA --country GB --tries 2",
        WantedJob::AskByNotes("a.notes", WantedCall { tries: 2, ..DRAW }),
    ),
    (
        "s10 grant --notes post.notes --to 127.0.0.1:4711 --holder 7 --service RA --country GB --first 0 --last 2",
        WantedJob::AskByNotes("post.notes", GRANT),
    ),
    (
        "s10 serve --most-days-ahead 30 --bind 0.0.0.0:0 --ledger a.db",
        WantedJob::Serve(WantedServer {
            options: TurnOptions {
                most_days_ahead: Some(30),
                ..TURNS
            },
            ..SERVE
        }),
    ),
    (
        "s10 serve --until end --count 3 --bind 0.0.0.0:0 --ledger a.db",
        WantedJob::Serve(WantedServer {
            options: TurnOptions { count: 3, ..TURNS },
            until: Some("end"),
            ..SERVE
        }),
    ),
    (
        "s10 report --day 0 --issues --ledger 'a b.db'",
        WantedJob::Report("a b.db", ISSUES, Some(0)),
    ),
    (
        "s10 report --issues --ledger a.db --customer 7 --range 1 --from-day 2 --to-day 3",
        WantedJob::Report(
            "a.db",
            WantedReport::Issues(
                WantedFilter {
                    customer: Some(7),
                    range: Some(1),
                    from_day: Some(2),
                    to_day: Some(3),
                },
                ReportFormat::Lines,
            ),
            None,
        ),
    ),
    (
        "s10 report --csv --ledger a.db --to-day 3",
        WantedJob::Report(
            "a.db",
            WantedReport::Issues(
                WantedFilter {
                    to_day: Some(3),
                    ..ALL
                },
                ReportFormat::Csv,
            ),
            None,
        ),
    ),
    (
        "s10 info --ledger a.db",
        WantedJob::Report("a.db", WantedReport::Info, None),
    ),
    (
        "s10 info --day 20030 --ledger a.db",
        WantedJob::Report("a.db", WantedReport::Info, Some(20030)),
    ),
    (
        "s10 report --snapshot --ledger a.db",
        WantedJob::SnapshotReport("a.db", RANGES, None),
    ),
    (
        "s10 report --day 0 --issues --ledger a.db --snapshot",
        WantedJob::SnapshotReport("a.db", ISSUES, Some(0)),
    ),
    (
        "s10 info --ledger a.db --snapshot --day 20030",
        WantedJob::SnapshotReport("a.db", WantedReport::Info, Some(20030)),
    ),
    (
        "s10 audit --snapshot --ledger a.db",
        WantedJob::SnapshotAudit("a.db"),
    ),
    (
        "s10 copy --to b.db --ledger a.db",
        WantedJob::Copy("a.db", "b.db"),
    ),
    ("s10 loop --day 20000", WantedJob::Loop(Some(20000))),
    ("s10 check RA473124829US", WantedJob::Nothing),
];

#[test]
fn options_that_may_be_left_out_are_read(rt: HostRuntime) {
    ask_as_wanted(&rt, OPTIONS);
}

#[test]
fn an_identifier_is_read_as_on_a_label(rt: HostRuntime) {
    let line = "s10 report --ledger a.db --id 'ra 0000 0000 5 gb'";
    let filter = RangeFilter {
        customer: None,
        range: None,
        id: Some(id(0)),
    };
    let wanted = Job::Report {
        ledger: "a.db",
        kind: ReportKind::Ranges {
            filter,
            format: ReportFormat::Lines,
        },
        day: None,
    };
    let words = Words::of(line);
    assert!(rt; same(&rt, &line, &job_of(&rt, words.as_slice()), &Some(wanted)));
}

const LIMITS: &[Line] = &[
    (
        "s10 create --ledger a.db --interval 3650 --limit 1000000000",
        WantedJob::Create("a.db", 3650, 1000000000),
    ),
    (
        "s10 grant --tries 100 --last 99999999 --first 99999998 --country gb --service '' --holder 4294967295 --number 4294967295 --to post",
        WantedJob::Ask(WantedCall {
            to: "post",
            customer: 0,
            number: 4294967295,
            body: WantedBody::Grant(WantedGrant {
                holder: 4294967295,
                service: "",
                country: "gb",
                first: 99999998,
                last: 99999999,
            }),
            tries: 100,
        }),
    ),
    (
        "s10 withdraw --tries 1 --range 0 --number 0 --to ''",
        WantedJob::Ask(WantedCall {
            to: "",
            customer: 0,
            number: 0,
            body: WantedBody::Withdraw(0),
            tries: 1,
        }),
    ),
    (
        "s10 withdraw --range=4294967295 --number=4294967295 --to=post",
        WantedJob::Ask(WantedCall {
            to: "post",
            number: 4294967295,
            body: WantedBody::Withdraw(4294967295),
            ..WITHDRAW
        }),
    ),
];

#[test]
fn numbers_are_read_up_to_their_limits(rt: HostRuntime) {
    ask_as_wanted(&rt, LIMITS);
}

/// Returns the words without an option and its value, or `None` if memory is refused.
fn without<'a>(alloc: Global, words: &[&'a str], option: &str) -> Option<Vec<&'a str>> {
    let mut left = Vec::new(alloc);
    let mut follows = false;
    for word in words {
        let is_option = *word == option;
        if !follows && !is_option {
            left.push(*word).ok()?;
        }
        follows = is_option;
    }
    Some(left)
}

/// Returns whether the words without this option are no command line.
fn is_required<R: Eprint + AllocGlobal>(rt: &R, words: &[&str], option: &str) -> bool {
    match without(rt.alloc(), words, option) {
        Some(left) => is_silent(rt, &left, Some(2)),
        None => false,
    }
}

/// Asserts that each option of these words is required.
fn options_are_required<R: Eprint + AllocGlobal + Abort>(rt: &R, words: &[&str]) {
    for word in words {
        if word.starts_with("--") {
            assert!(rt; holds(rt, &(words, word), is_required(rt, words, word)));
        }
    }
}

#[test]
fn each_option_without_a_default_is_required(rt: HostRuntime) {
    for (line, _) in lines() {
        options_are_required(&rt, Words::of(line).as_slice());
    }
}

/// In place of an option: the value is appended as one more word.
const ONE_MORE: &str = "";

/// Returns the words with another value of an option, or `None` if memory is refused.
fn with_value<'a>(
    alloc: Global,
    words: &[&'a str],
    option: &str,
    value: &'a str,
) -> Option<Vec<&'a str>> {
    let mut changed = Vec::new(alloc);
    let mut follows = false;
    for word in words {
        changed.push(if follows { value } else { *word }).ok()?;
        follows = *word == option;
    }
    if option == ONE_MORE {
        changed.push(value).ok()?;
    }
    Some(changed)
}

/// A subcommand, an option and its new value, and the job of the line with this value.
type Reach = (Subcommand, &'static str, &'static str, WantedJob);

/// Returns whether the line with the new value asks for its job.
fn reaches<R: Eprint + AllocGlobal>(rt: &R, reach: &Reach) -> bool {
    let (subcommand, option, value, wanted) = reach;
    let Some((line, _)) = line_of(*subcommand) else {
        return false;
    };
    let words = Words::of(line);
    match with_value(rt.alloc(), words.as_slice(), option, value) {
        Some(words) => same(rt, reach, &job_of(rt, &words), &wanted.job()),
        None => false,
    }
}

/// Asserts that each value reaches its own field.
fn reach_their_fields<R: Eprint + AllocGlobal + Abort>(rt: &R, values: &[Reach]) {
    for reach in values {
        assert!(rt; reaches(rt, reach));
    }
}

const VALUES: &[Reach] = &[
    (
        Create,
        "--ledger",
        "b.db",
        WantedJob::Create("b.db", 30, 100),
    ),
    (
        Create,
        "--interval",
        "31",
        WantedJob::Create("a.db", 31, 100),
    ),
    (Create, "--limit", "99", WantedJob::Create("a.db", 30, 99)),
    (
        Serve,
        "--ledger",
        "b.db",
        WantedJob::Serve(WantedServer {
            ledger: "b.db",
            ..SERVE
        }),
    ),
    (
        Serve,
        "--bind",
        "[::1]:9",
        WantedJob::Serve(WantedServer {
            bind: "[::1]:9",
            ..SERVE
        }),
    ),
    (
        Grant,
        "--to",
        "[::1]:9",
        WantedJob::Ask(WantedCall {
            to: "[::1]:9",
            ..GRANT
        }),
    ),
    (
        Grant,
        "--number",
        "8",
        WantedJob::Ask(WantedCall { number: 8, ..GRANT }),
    ),
    (
        Grant,
        "--holder",
        "8",
        WantedJob::Ask(WantedCall {
            body: WantedBody::Grant(WantedGrant { holder: 8, ..RANGE }),
            ..GRANT
        }),
    ),
    (
        Grant,
        "--service",
        "LA",
        WantedJob::Ask(WantedCall {
            body: WantedBody::Grant(WantedGrant {
                service: "LA",
                ..RANGE
            }),
            ..GRANT
        }),
    ),
    (
        Grant,
        "--country",
        "FR",
        WantedJob::Ask(WantedCall {
            body: WantedBody::Grant(WantedGrant {
                country: "FR",
                ..RANGE
            }),
            ..GRANT
        }),
    ),
    (
        Grant,
        "--first",
        "1",
        WantedJob::Ask(WantedCall {
            body: WantedBody::Grant(WantedGrant { first: 1, ..RANGE }),
            ..GRANT
        }),
    ),
    (
        Grant,
        "--last",
        "8",
        WantedJob::Ask(WantedCall {
            body: WantedBody::Grant(WantedGrant { last: 8, ..RANGE }),
            ..GRANT
        }),
    ),
    (
        Draw,
        "--to",
        "[::1]:9",
        WantedJob::Ask(WantedCall {
            to: "[::1]:9",
            ..DRAW
        }),
    ),
    (
        Draw,
        "--customer",
        "8",
        WantedJob::Ask(WantedCall {
            customer: 8,
            ..DRAW
        }),
    ),
    (
        Draw,
        "--number",
        "8",
        WantedJob::Ask(WantedCall { number: 8, ..DRAW }),
    ),
    (
        Draw,
        "--service",
        "LA",
        WantedJob::Ask(WantedCall {
            body: WantedBody::Draw("LA", "GB"),
            ..DRAW
        }),
    ),
    (
        Draw,
        "--country",
        "FR",
        WantedJob::Ask(WantedCall {
            body: WantedBody::Draw("RA", "FR"),
            ..DRAW
        }),
    ),
    (
        Void,
        "--to",
        "[::1]:9",
        WantedJob::Ask(WantedCall {
            to: "[::1]:9",
            ..VOID
        }),
    ),
    (
        Void,
        "--customer",
        "8",
        WantedJob::Ask(WantedCall {
            customer: 8,
            ..VOID
        }),
    ),
    (
        Void,
        "--number",
        "8",
        WantedJob::Ask(WantedCall { number: 8, ..VOID }),
    ),
    (
        Void,
        "--id",
        "x",
        WantedJob::Ask(WantedCall {
            body: WantedBody::Void("x"),
            ..VOID
        }),
    ),
    (
        Query,
        "--to",
        "[::1]:9",
        WantedJob::Ask(WantedCall {
            to: "[::1]:9",
            ..QUERY
        }),
    ),
    (
        Query,
        "--customer",
        "8",
        WantedJob::Ask(WantedCall {
            customer: 8,
            ..QUERY
        }),
    ),
    (
        Query,
        "--number",
        "8",
        WantedJob::Ask(WantedCall { number: 8, ..QUERY }),
    ),
    (
        Query,
        "--id",
        "x",
        WantedJob::Ask(WantedCall {
            body: WantedBody::Query("x"),
            ..QUERY
        }),
    ),
    (
        Withdraw,
        "--to",
        "[::1]:9",
        WantedJob::Ask(WantedCall {
            to: "[::1]:9",
            ..WITHDRAW
        }),
    ),
    (
        Withdraw,
        "--number",
        "8",
        WantedJob::Ask(WantedCall {
            number: 8,
            ..WITHDRAW
        }),
    ),
    (
        Withdraw,
        "--range",
        "8",
        WantedJob::Ask(WantedCall {
            body: WantedBody::Withdraw(8),
            ..WITHDRAW
        }),
    ),
    (
        Notes,
        "--file",
        "b.notes",
        WantedJob::Notes("b.notes", 7, 1, 999999),
    ),
    (
        Notes,
        "--customer",
        "8",
        WantedJob::Notes("a.notes", 8, 1, 999999),
    ),
    (
        Notes,
        "--first",
        "8",
        WantedJob::Notes("a.notes", 7, 8, 999999),
    ),
    (Notes, "--last", "8", WantedJob::Notes("a.notes", 7, 1, 8)),
    (
        Again,
        "--to",
        "[::1]:9",
        WantedJob::Again("[::1]:9", "a.notes", 5),
    ),
    (
        Again,
        "--notes",
        "b.notes",
        WantedJob::Again("127.0.0.1:4711", "b.notes", 5),
    ),
    (
        Report,
        "--ledger",
        "b.db",
        WantedJob::Report("b.db", RANGES, None),
    ),
    (Audit, "--ledger", "b.db", WantedJob::Audit("b.db")),
];

#[test]
fn each_required_option_reaches_its_own_field(rt: HostRuntime) {
    reach_their_fields(&rt, VALUES);
}

const MORE: &[Reach] = &[
    (
        Serve,
        ONE_MORE,
        "--day=9",
        WantedJob::Serve(WantedServer {
            options: TurnOptions {
                day: Some(9),
                ..TURNS
            },
            ..SERVE
        }),
    ),
    (
        Serve,
        ONE_MORE,
        "--count=8",
        WantedJob::Serve(WantedServer {
            options: TurnOptions { count: 8, ..TURNS },
            ..SERVE
        }),
    ),
    (
        Serve,
        ONE_MORE,
        "--senders",
        WantedJob::Serve(WantedServer {
            options: TurnOptions {
                senders: true,
                ..TURNS
            },
            ..SERVE
        }),
    ),
    (
        Serve,
        ONE_MORE,
        "--most-days-ahead=0",
        WantedJob::Serve(WantedServer {
            options: TurnOptions {
                most_days_ahead: Some(0),
                ..TURNS
            },
            ..SERVE
        }),
    ),
    (
        Serve,
        ONE_MORE,
        "--until=end",
        WantedJob::Serve(WantedServer {
            until: Some("end"),
            ..SERVE
        }),
    ),
    (
        Grant,
        ONE_MORE,
        "--tries=9",
        WantedJob::Ask(WantedCall { tries: 9, ..GRANT }),
    ),
    (
        Draw,
        ONE_MORE,
        "--tries=9",
        WantedJob::Ask(WantedCall { tries: 9, ..DRAW }),
    ),
    (
        Draw,
        ONE_MORE,
        "--count=9",
        WantedJob::Ask(WantedCall {
            body: WantedBody::DrawMany("RA", "GB", 9),
            ..DRAW
        }),
    ),
    (
        Void,
        ONE_MORE,
        "--tries=9",
        WantedJob::Ask(WantedCall { tries: 9, ..VOID }),
    ),
    (
        Query,
        ONE_MORE,
        "--tries=9",
        WantedJob::Ask(WantedCall { tries: 9, ..QUERY }),
    ),
    (
        Withdraw,
        ONE_MORE,
        "--tries=9",
        WantedJob::Ask(WantedCall {
            tries: 9,
            ..WITHDRAW
        }),
    ),
    (
        Again,
        ONE_MORE,
        "--tries=9",
        WantedJob::Again("127.0.0.1:4711", "a.notes", 9),
    ),
    (
        Report,
        ONE_MORE,
        "--day=9",
        WantedJob::Report("a.db", RANGES, Some(9)),
    ),
    (
        Report,
        ONE_MORE,
        "--issues",
        WantedJob::Report("a.db", ISSUES, None),
    ),
    (
        Report,
        ONE_MORE,
        "--csv",
        WantedJob::Report("a.db", WantedReport::Ranges(ALL, ReportFormat::Csv), None),
    ),
    (
        Report,
        ONE_MORE,
        "--customer=7",
        WantedJob::Report(
            "a.db",
            WantedReport::Ranges(
                WantedFilter {
                    customer: Some(7),
                    ..ALL
                },
                ReportFormat::Lines,
            ),
            None,
        ),
    ),
    (
        Report,
        ONE_MORE,
        "--range=1",
        WantedJob::Report(
            "a.db",
            WantedReport::Ranges(
                WantedFilter {
                    range: Some(1),
                    ..ALL
                },
                ReportFormat::Lines,
            ),
            None,
        ),
    ),
    (Loop, ONE_MORE, "--day=9", WantedJob::Loop(Some(9))),
];

#[test]
fn each_option_that_may_be_left_out_reaches_its_own_field(rt: HostRuntime) {
    reach_their_fields(&rt, MORE);
}

/// A subcommand, an option, and its new value.
type Edit = (Subcommand, &'static str, &'static str);

/// Returns whether the line with the new value is no command line.
fn is_refused<R: Eprint + AllocGlobal>(rt: &R, edit: &Edit) -> bool {
    let (subcommand, option, value) = edit;
    let Some((line, _)) = line_of(*subcommand) else {
        return false;
    };
    let words = Words::of(line);
    match with_value(rt.alloc(), words.as_slice(), option, value) {
        Some(words) => is_silent(rt, &words, Some(2)),
        None => false,
    }
}

/// Asserts that no line is a command line with its new value.
fn are_refused<R: Eprint + AllocGlobal + Abort>(rt: &R, edits: &[Edit]) {
    for edit in edits {
        assert!(rt; holds(rt, edit, is_refused(rt, edit)));
    }
}

const WRONG_VALUES: &[Edit] = &[
    (Create, "--interval", "0"),
    (Create, "--interval", "3651"),
    (Create, "--interval", "-1"),
    (Create, "--interval", ""),
    (Create, "--interval", "x"),
    (Create, "--limit", "0"),
    (Create, "--limit", "1000000001"),
    (Create, "--limit", "4294967297"),
    (Notes, "--customer", "4294967296"),
    (Notes, "--first", "-1"),
    (Notes, "--last", "4294967296"),
    (Grant, "--first", "100000000"),
    (Grant, "--first", "-1"),
    (Grant, "--last", "100000000"),
    (Grant, "--last", "4294967296"),
    (Grant, "--holder", "4294967296"),
    (Grant, "--holder", "post"),
    (Draw, "--customer", "4294967296"),
    (Draw, "--number", "4294967296"),
    (Draw, "--number", "0x1"),
    (Void, "--number", "-1"),
    (Query, "--customer", ""),
    (Withdraw, "--number", "4294967296"),
    (Withdraw, "--range", "4294967296"),
    (Withdraw, "--range", "-1"),
    (Withdraw, "--range", ""),
    (Withdraw, "--range", "RA"),
];

#[test]
fn numbers_out_of_their_ranges_are_no_command_line(rt: HostRuntime) {
    are_refused(&rt, WRONG_VALUES);
}

const WRONG_OPTIONS: &[Edit] = &[
    (Grant, ONE_MORE, "--tries=0"),
    (Grant, ONE_MORE, "--tries=101"),
    (Draw, ONE_MORE, "--tries=0"),
    (Draw, ONE_MORE, "--tries=101"),
    (Draw, ONE_MORE, "--count=0"),
    (Draw, ONE_MORE, "--count=17"),
    (Void, ONE_MORE, "--tries=0"),
    (Void, ONE_MORE, "--tries=101"),
    (Query, ONE_MORE, "--tries=0"),
    (Query, ONE_MORE, "--tries=101"),
    (Withdraw, ONE_MORE, "--tries=0"),
    (Withdraw, ONE_MORE, "--tries=101"),
    (Again, ONE_MORE, "--tries=0"),
    (Again, ONE_MORE, "--tries=101"),
    (Serve, ONE_MORE, "--count=4294967296"),
    (Serve, ONE_MORE, "--count=-1"),
    (Serve, ONE_MORE, "--count=1.5"),
    (Serve, ONE_MORE, "--day=4294967296"),
    (Serve, ONE_MORE, "--most-days-ahead=4294967296"),
    (Serve, ONE_MORE, "--most-days-ahead=-1"),
    (Report, ONE_MORE, "--day=4294967296"),
    (Report, ONE_MORE, "--customer=4294967296"),
    (Report, ONE_MORE, "--range=-1"),
    (Report, ONE_MORE, "--id=RA000000006GB"),
    (Report, ONE_MORE, "--id="),
    (Report, ONE_MORE, "--from-day=1.5"),
    (Report, ONE_MORE, "--to-day=4294967296"),
    (Loop, ONE_MORE, "--day=4294967296"),
];

#[test]
fn tries_counts_and_days_out_of_their_ranges_are_no_command_line(rt: HostRuntime) {
    are_refused(&rt, WRONG_OPTIONS);
}

const CUSTOMERS: &[Edit] = &[
    (Grant, ONE_MORE, "--customer=0"),
    (Withdraw, ONE_MORE, "--customer=0"),
];

#[test]
fn requests_of_the_post_have_no_customer_option(rt: HostRuntime) {
    are_refused(&rt, CUSTOMERS);
}

const PARTS: &[Edit] = &[
    (Withdraw, ONE_MORE, "--range=2"),
    (Withdraw, ONE_MORE, "--first=0"),
    (Withdraw, ONE_MORE, "--id=RA000000005GB"),
    (Withdraw, ONE_MORE, "1"),
];

#[test]
fn a_withdrawal_is_of_a_whole_range_by_its_number(rt: HostRuntime) {
    are_refused(&rt, PARTS);
}

/// Returns whether a text names each option of the words.
fn names_options(text: &str, words: &[&str]) -> bool {
    for word in words {
        if word.starts_with("--") && !text.contains(*word) {
            return false;
        }
    }
    true
}

/// Returns whether a help text has an example, and names each option of the words.
fn explains(help: &[u8], words: &[&str]) -> bool {
    let Ok(text) = std::str::from_utf8(help) else {
        return false;
    };
    let has_example = text.contains("Example:\n  s10 ") || text.contains("Examples:\n  s10 ");
    has_example && names_options(text, words)
}

/// Returns whether the help text of the subcommand has an example, and names each option of the
/// words.
fn is_explained<R: Eprint + AllocGlobal>(rt: &R, words: &[&str]) -> bool {
    let Some(name) = words.get(1) else {
        return false;
    };
    let mut input: &[u8] = b"";
    let mut output = Vec::new(rt.alloc());
    let help = ["s10", "help", *name];
    let ended = run_line(rt, &help, &mut input, &mut output);
    status_of(&ended) == Some(0) && explains(output.as_slice(), words)
}

#[test]
fn help_names_the_options(rt: HostRuntime) {
    for (line, _) in lines() {
        let words = Words::of(line);
        assert!(rt; holds(&rt, line, is_explained(&rt, words.as_slice())));
    }
}

/// Requests that have no number, or notes beside a number or a customer.
const NO_NUMBERS: &[&str] = &[
    "s10 draw --to 127.0.0.1:4711 --service RA --country GB",
    "s10 draw --to 127.0.0.1:4711 --customer 7 --service RA --country GB",
    "s10 draw --to 127.0.0.1:4711 --number 1 --service RA --country GB",
    "s10 draw --to 127.0.0.1:4711 --notes a.notes --number 1 --service RA --country GB",
    "s10 void --to 127.0.0.1:4711 --notes a.notes --customer 7 --id RA000000005GB",
    "s10 query --to 127.0.0.1:4711 --notes a.notes --customer 7 --number 1 --id RA000000005GB",
    "s10 withdraw --to 127.0.0.1:4711 --notes a.notes --number 1 --range 1",
    "s10 withdraw --to 127.0.0.1:4711 --range 1",
];

#[test]
fn a_request_has_either_a_number_or_notes(rt: HostRuntime) {
    for line in NO_NUMBERS {
        let words = Words::of(line);
        assert!(rt; holds(&rt, line, is_silent(&rt, words.as_slice(), Some(2))));
    }
}
