//! The two reports of a ledger.

use crate::book::books::book_after;
use s10_book::{Book, BookFault, TripBook};
use s10_reports::{
    IssueFilter, IssuesReport, RangeFilter, ReportFault, ReportFormat, write_issues, write_ranges,
};
use s10_test_help::answered::Answered::{Drawn, DrawnMany, Granted, Voided, Withdrawn};
use s10_test_help::asked::Asked::{Draw, DrawMany, Grant, Void, Withdraw};
use s10_test_help::expect::same;
use s10_test_help::hiccup::Hiccup;
use s10_test_help::samples::id;
use s10_test_help::steps::{NINE_CALLS, OPENING, SIX_CALLS, Step};
use std::alloc::Global;
use std::io::Write;
use std::process::Abort;

const NO_RANGES: &[u8] = b"range customer service country first last used voided free\n";

const NO_ISSUES: &[u8] = b"arrival day customer number identifier state\n";

const SIX_CALLS_RANGES: &[u8] = b"range customer service country first last used voided free\n\
1 7 RA GB 00000000 00000002 3 1 0\n";

const SIX_CALLS_ISSUES: &[u8] = b"arrival day customer number identifier state\n\
2 20000 7 1 RA000000005GB issued\n\
3 20000 7 2 RA000000014GB voided\n\
6 20000 7 5 RA000000028GB issued\n";

const RANGES: &[u8] = b"range customer service country first last used voided free\n\
1 7 RA GB 00000000 00000002 3 0 1\n";

const ISSUES: &[u8] = b"arrival day customer number identifier state\n\
2 20000 7 1 RA000000005GB reissued\n\
3 20000 7 2 RA000000014GB reissued\n\
6 20000 7 5 RA000000028GB issued\n\
8 20030 7 7 RA000000005GB issued\n\
9 20030 7 8 RA000000014GB issued\n";

const SHEETS_RANGES: &[u8] = b"range customer service country first last used voided free\n\
1 7 RA GB 00000000 00000002 3 1 1\n";

const CLOSED_RANGES: &[u8] = b"range customer service country first last used voided free\n\
1 7 RA GB 00000000 00000002 1 1 2 closed\n\
2 8 RA GB 00000003 00000003 0 0 1\n";

const SHEETS_ISSUES: &[u8] = b"arrival day customer number identifier state\n\
2 20000 7 1 RA000000005GB reissued\n\
2 20000 7 1 RA000000014GB issued\n\
3 20030 7 2 RA000000028GB issued\n\
3 20030 7 2 RA000000005GB voided\n";

/// Admits every range.
pub(crate) const ALL_RANGES: RangeFilter = RangeFilter {
    customer: None,
    range: None,
    id: None,
};

/// Every issuance, as lines.
pub(crate) const ALL_ISSUES: IssuesReport = IssuesReport {
    filter: IssueFilter {
        customer: None,
        range: None,
        id: None,
        from_day: None,
        to_day: None,
    },
    format: ReportFormat::Lines,
};

/// Writes the report of the ranges on a day, or the report of the issues if there is no day.
fn write_report<B: Book, W: Write>(
    book: &mut B,
    day: Option<u32>,
    out: &mut W,
) -> Result<(), ReportFault> {
    match day {
        Some(day) => write_ranges(book, &ALL_RANGES, ReportFormat::Lines, day, out),
        None => write_issues(book, &ALL_ISSUES, out),
    }
}

/// Returns whether the report has this text.
fn reports<B: Book>(alloc: Global, book: &mut B, day: Option<u32>, report: &[u8]) -> bool {
    let mut out = Vec::new(alloc);
    write_report(book, day, &mut out) == Ok(()) && out.as_slice() == report
}

/// A report and its text: of the ranges on a day, or of the issues if there is no day.
type Report = (Option<u32>, &'static [u8]);

/// Asserts that the reports of the book have these texts.
fn writes<R: Abort + AllocGlobal, B: Book + Drop>(rt: &R, mut book: B, wanted: &[Report]) {
    for (day, report) in wanted {
        assert!(rt; reports(rt.alloc(), &mut book, *day, report));
    }
}

/// Asserts that the reports have these texts after these steps.
fn are_reported<R: Abort + Eprint + AllocGlobal>(
    rt: &R,
    name: &str,
    steps: &[Step],
    wanted: &[Report],
) {
    writes(rt, book_after(rt, name, steps), wanted);
}

const NINE_CALLS_REPORTS: &'static [Report] = &[(Some(20030), RANGES), (None, ISSUES)];

#[test]
fn reports_are_as_worked_by_hand(rt: HostRuntime) {
    are_reported(&rt, "nine calls", NINE_CALLS, NINE_CALLS_REPORTS);
}

const SIX_CALLS_REPORTS: &'static [Report] = &[
    (Some(20000), SIX_CALLS_RANGES),
    (None, SIX_CALLS_ISSUES),
];

#[test]
fn a_voided_identifier_is_counted_and_named(rt: HostRuntime) {
    are_reported(&rt, "six calls", SIX_CALLS, SIX_CALLS_REPORTS);
}

/// Two sheets with one identifier in common, which is voided.
const TWO_SHEETS: &'static [Step] = &[
    OPENING,
    (7, 1, DrawMany(2), 20000, DrawnMany(20000, (0, 2), (0, 0))),
    (7, 2, DrawMany(2), 20030, DrawnMany(20030, (2, 3), (0, 1))),
    (7, 3, Void(0), 20030, Voided),
];

const SHEETS_REPORTS: &'static [Report] = &[(Some(20030), SHEETS_RANGES), (None, SHEETS_ISSUES)];

#[test]
fn a_sheet_has_a_line_for_each_identifier(rt: HostRuntime) {
    are_reported(&rt, "two sheets", TWO_SHEETS, SHEETS_REPORTS);
}

/// A range is closed, and another one is granted after it.
const CLOSED_RANGE: &'static [Step] = &[
    OPENING,
    (7, 1, Draw, 20000, Drawn(20000, 0)),
    (0, 2, Withdraw(1), 20000, Withdrawn),
    (7, 2, Void(0), 20000, Voided),
    (0, 3, Grant(8, 3, 3), 20000, Granted(2)),
];

#[test]
fn the_line_of_a_closed_range_says_so(rt: HostRuntime) {
    let wanted = &[(Some(20000), CLOSED_RANGES)];
    are_reported(&rt, "a closed range", CLOSED_RANGE, wanted);
}

#[test]
fn an_empty_ledger_has_only_headers(rt: HostRuntime) {
    are_reported(&rt, "empty", &[], &[(Some(20000), NO_RANGES)]);
    are_reported(&rt, "one grant", &[OPENING], &[(None, NO_ISSUES)]);
}

/// Returns whether a text is the beginning of the whole, and ends where a line ends.
fn is_of_whole_lines(text: &[u8], whole: &[u8]) -> bool {
    whole.starts_with(text) && (text.is_empty() || text.ends_with(b"\n"))
}

/// Returns whether the report stops after whole lines when the store fails.
fn stops<B: Book + Drop>(alloc: Global, mut book: B, day: Option<u32>, whole: &[u8]) -> bool {
    let mut out = Vec::new(alloc);
    write_report(&mut book, day, &mut out) == Err(ReportFault::Book(BookFault::Store))
        && is_of_whole_lines(out.as_slice(), whole)
}

/// Returns the first call of the book, after the nine calls, whose failure does not stop the
/// report. The report makes this number of calls.
fn first_without_failure<R: Abort + Eprint + AllocGlobal>(
    rt: &R,
    day: Option<u32>,
    whole: &[u8],
) -> u64 {
    for at in 0..100u64 {
        let book = TripBook::new(book_after(rt, "nine calls", NINE_CALLS), at);
        if !stops(rt.alloc(), book, day, whole) {
            return at;
        }
    }
    100
}

// The report of the issues makes 19 calls of the book, and the report of the ranges makes 4.
#[test]
fn a_book_that_fails_leaves_whole_lines(rt: HostRuntime) {
    assert!(rt;
        same(
            &rt,
            &"issues",
            &first_without_failure(&rt, None, ISSUES),
            &19,
        )
    );
    assert!(rt;
        same(
            &rt,
            &"ranges",
            &first_without_failure(&rt, Some(20030), RANGES),
            &4,
        )
    );
}

/// Returns whether the report fails and the writer has exactly its first `room` bytes.
fn is_cut<B: Book>(
    alloc: Global,
    book: &mut B,
    room: usize,
    day: Option<u32>,
    whole: &[u8],
) -> bool {
    let mut out = Hiccup::new(alloc, room);
    let answer = write_report(book, day, &mut out);
    room < whole.len()
        && answer == Err(ReportFault::Write)
        && out.bytes.as_slice() == &whole[..room]
}

/// Returns the least room with which a report is not cut.
fn first_uncut<B: Book>(alloc: Global, book: &mut B, day: Option<u32>, whole: &[u8]) -> usize {
    for room in 0..whole.len() {
        if !is_cut(alloc, book, room, day, whole) {
            return room;
        }
    }
    whole.len()
}

/// Asserts that every writer with less room than a report has bytes cuts it.
fn are_cut<R: Abort + Eprint + AllocGlobal, B: Book + Drop>(
    rt: &R,
    mut book: B,
    reports: &[Report],
) {
    for (day, whole) in reports {
        let uncut = first_uncut(rt.alloc(), &mut book, *day, whole);
        assert!(rt; same(rt, day, &uncut, &whole.len()));
    }
}

const TEXTS: &[(ReportFault, &str)] = &[
    (ReportFault::Book(BookFault::Memory), "book: memory"),
    (ReportFault::Write, "the report could not be written"),
];

/// Returns whether a fault has this text.
fn has_text(alloc: Global, fault: &ReportFault, text: &str) -> bool {
    match fault.to_string(alloc) {
        Ok(found) => found.as_str() == text,
        Err(_) => false,
    }
}

#[test]
fn a_writer_that_fails_once_has_the_beginning_of_the_report(rt: HostRuntime) {
    let book = book_after(&rt, "nine calls", NINE_CALLS);
    are_cut(&rt, book, &[(None, ISSUES), (Some(20030), RANGES)]);
    for (fault, text) in TEXTS {
        assert!(rt; has_text(rt.alloc(), fault, text));
    }
}

/// A filter of ranges: a customer, a range, the serial of an identifier; then the lines that it leaves
/// of the two ranges, after the headings.
type RangeCase = (Option<u32>, Option<u32>, Option<u32>, &'static str);

const RANGE_1: &str = "1 7 RA GB 00000000 00000002 1 1 2 closed\n";

const RANGE_2: &str = "2 8 RA GB 00000003 00000003 0 0 1\n";

const RANGE_CASES: &[RangeCase] = &[
    (Some(7), None, None, RANGE_1),
    (Some(8), None, None, RANGE_2),
    (Some(9), None, None, ""),
    (None, Some(1), None, RANGE_1),
    (None, Some(2), None, RANGE_2),
    (None, Some(3), None, ""),
    (None, None, Some(2), RANGE_1),
    (None, None, Some(3), RANGE_2),
    (None, None, Some(4), ""),
    (Some(8), Some(2), Some(3), RANGE_2),
    (Some(7), Some(2), None, ""),
    (Some(7), None, Some(3), ""),
];

/// Returns whether the ranges that a filter leaves have these lines.
fn leaves_ranges<B: Book + Drop>(alloc: Global, mut book: B, case: &RangeCase) -> bool {
    let (customer, range, serial, lines) = *case;
    let filter = RangeFilter {
        customer,
        range,
        id: serial.map(id),
    };
    let mut out = Vec::new(alloc);
    let written = write_ranges(&mut book, &filter, ReportFormat::Lines, 20_000, &mut out);
    written == Ok(()) && out.starts_with(NO_RANGES) && &out[NO_RANGES.len()..] == lines.as_bytes()
}

#[test]
fn a_filter_leaves_the_ranges_that_agree_with_all_of_it(rt: HostRuntime) {
    for case in RANGE_CASES {
        let book = book_after(&rt, "a closed range", CLOSED_RANGE);
        assert!(rt; leaves_ranges(rt.alloc(), book, case));
    }
}

/// A filter of issues: a customer, a range, the serial of an identifier, the first and the last day;
/// then the lines that it leaves of the nine calls, after the headings.
type IssueCase = (
    Option<u32>,
    Option<u32>,
    Option<u32>,
    (Option<u32>, Option<u32>),
    &'static str,
);

const FIRST_DAY: &str = "2 20000 7 1 RA000000005GB reissued\n\
3 20000 7 2 RA000000014GB reissued\n\
6 20000 7 5 RA000000028GB issued\n";

const LAST_DAY: &str = "8 20030 7 7 RA000000005GB issued\n\
9 20030 7 8 RA000000014GB issued\n";

const SERIAL_0: &str = "2 20000 7 1 RA000000005GB reissued\n\
8 20030 7 7 RA000000005GB issued\n";

const ISSUE_CASES: &[IssueCase] = &[
    (None, None, None, (None, Some(20_000)), FIRST_DAY),
    (None, None, None, (None, Some(20_029)), FIRST_DAY),
    (None, None, None, (Some(20_001), None), LAST_DAY),
    (None, None, None, (Some(20_030), None), LAST_DAY),
    (None, None, None, (Some(20_030), Some(20_030)), LAST_DAY),
    (None, None, None, (Some(20_001), Some(20_029)), ""),
    (None, None, Some(0), (None, None), SERIAL_0),
    (None, None, Some(3), (None, None), ""),
    (Some(8), None, None, (None, None), ""),
    (None, Some(2), None, (None, None), ""),
    (
        Some(7),
        Some(1),
        Some(0),
        (Some(20_000), Some(20_030)),
        SERIAL_0,
    ),
];

/// Returns whether the issues that a filter leaves have these lines.
fn leaves_issues<B: Book + Drop>(alloc: Global, mut book: B, case: &IssueCase) -> bool {
    let (customer, range, serial, (from_day, to_day), lines) = *case;
    let report = IssuesReport {
        filter: IssueFilter {
            customer,
            range,
            id: serial.map(id),
            from_day,
            to_day,
        },
        format: ReportFormat::Lines,
    };
    let mut out = Vec::new(alloc);
    let written = write_issues(&mut book, &report, &mut out);
    written == Ok(()) && out.starts_with(NO_ISSUES) && &out[NO_ISSUES.len()..] == lines.as_bytes()
}

#[test]
fn a_filter_leaves_the_issues_that_agree_with_all_of_it(rt: HostRuntime) {
    for case in ISSUE_CASES {
        let book = book_after(&rt, "nine calls", NINE_CALLS);
        assert!(rt; leaves_issues(rt.alloc(), book, case));
    }
}

const RANGE_RECORDS: &[u8] =
    b"range,customer,service,country,first,last,used,voided,free,closed,day,date\r\n\
1,7,RA,GB,00000000,00000002,1,1,2,yes,20001,2024-10-05\r\n\
2,8,RA,GB,00000003,00000003,0,0,1,no,20001,2024-10-05\r\n";

const ISSUE_RECORDS: &[u8] = b"arrival,day,date,customer,number,identifier,range,state\r\n\
2,20000,2024-10-04,7,1,RA000000005GB,1,reissued\r\n\
3,20000,2024-10-04,7,2,RA000000014GB,1,reissued\r\n\
6,20000,2024-10-04,7,5,RA000000028GB,1,issued\r\n\
8,20030,2024-11-03,7,7,RA000000005GB,1,issued\r\n\
9,20030,2024-11-03,7,8,RA000000014GB,1,issued\r\n";

/// Returns whether the records of the ranges on a day, and those of the issues without one, are these.
fn records<B: Book + Drop>(alloc: Global, mut book: B, day: Option<u32>, wanted: &[u8]) -> bool {
    let mut out = Vec::new(alloc);
    let issues = IssuesReport {
        filter: ALL_ISSUES.filter,
        format: ReportFormat::Csv,
    };
    let written = match day {
        Some(day) => write_ranges(&mut book, &ALL_RANGES, ReportFormat::Csv, day, &mut out),
        None => write_issues(&mut book, &issues, &mut out),
    };
    written == Ok(()) && out.as_slice() == wanted
}

#[test]
fn records_have_each_day_also_as_a_date(rt: HostRuntime) {
    let ranges = book_after(&rt, "a closed range", CLOSED_RANGE);
    assert!(rt; records(rt.alloc(), ranges, Some(20_001), RANGE_RECORDS));
    let issues = book_after(&rt, "nine calls", NINE_CALLS);
    assert!(rt; records(rt.alloc(), issues, None, ISSUE_RECORDS));
}

/// A range and a draw of which each number and each day that a caller can choose is the greatest.
const GREATEST_CALLS: &[Step] = &[
    (
        0,
        4_294_967_295,
        Grant(4_294_967_295, 99_999_998, 99_999_999),
        4_294_967_295,
        Granted(1),
    ),
    (
        4_294_967_295,
        4_294_967_295,
        Draw,
        4_294_967_295,
        Drawn(4_294_967_295, 99_999_998),
    ),
];

const GREATEST_RANGE: &[u8] = b"range customer service country first last used voided free\n\
1 4294967295 RA GB 99999998 99999999 1 0 1\n";

const GREATEST_ISSUE: &[u8] = b"arrival day customer number identifier state\n\
2 4294967295 4294967295 4294967295 RA999999987GB issued\n";

const GREATEST_RANGE_RECORD: &[u8] =
    b"range,customer,service,country,first,last,used,voided,free,closed,day,date\r\n\
1,4294967295,RA,GB,99999998,99999999,1,0,1,no,4294967295,11761191-01-20\r\n";

const GREATEST_ISSUE_RECORD: &[u8] = b"arrival,day,date,customer,number,identifier,range,state\r\n\
2,4294967295,11761191-01-20,4294967295,4294967295,RA999999987GB,1,issued\r\n";

#[test]
fn a_report_has_room_for_the_greatest_numbers(rt: HostRuntime) {
    let reports = &[
        (Some(4_294_967_295), GREATEST_RANGE),
        (None, GREATEST_ISSUE),
    ];
    are_reported(&rt, "greatest", GREATEST_CALLS, reports);
    let ranges = book_after(&rt, "greatest", GREATEST_CALLS);
    assert!(rt;
        records(
            rt.alloc(),
            ranges,
            Some(4_294_967_295),
            GREATEST_RANGE_RECORD
        )
    );
    let issues = book_after(&rt, "greatest", GREATEST_CALLS);
    assert!(rt; records(rt.alloc(), issues, None, GREATEST_ISSUE_RECORD));
}
