//! Command lines that need no ledger and no link.

use s10_cli::{LineEnd, run_line};
use s10_test_help::expect::holds;
use s10_test_help::refusing::Refusing;
use s10_test_help::words::Words;
use std::io;
use std::io::Read;
use std::process::Abort;

/// A command line, the exit status, and what is printed.
type Case = (&'static str, u8, &'static str);

/// Returns the exit status of a command line that ended.
pub(crate) fn status_of(ended: &LineEnd<'_>) -> Option<u8> {
    match ended {
        LineEnd::Ended(status) => Some(*status),
        LineEnd::Asks(_) => None,
    }
}

/// Returns whether a command line over this input has this status and prints this text. A status of
/// `None` means that the line is left to the program.
pub(crate) fn prints<R: Eprint + AllocGlobal, I: Read>(
    rt: &R,
    words: &[&str],
    input: &mut I,
    status: Option<u8>,
    text: &str,
) -> bool {
    let mut output = Vec::new(rt.alloc());
    let ended = run_line(rt, words, input, &mut output);
    status_of(&ended) == status && output.as_slice() == text.as_bytes()
}

/// Asserts the status and the text of each command line over this input.
fn run_over<R: Eprint + AllocGlobal + Abort>(rt: &R, input: &[u8], cases: &[Case]) {
    for case in cases {
        let (line, status, text) = case;
        let words = Words::of(line);
        let mut left = input;
        assert!(rt;
            holds(
                rt,
                case,
                prints(rt, words.as_slice(), &mut left, Some(*status), text)
            )
        );
    }
}

/// Asserts the same for command lines that read no input.
fn run_cases<R: Eprint + AllocGlobal + Abort>(rt: &R, cases: &[Case]) {
    run_over(rt, b"", cases);
}

const VALID: &[Case] = &[
    (
        "s10 check RA473124829US",
        0,
        "RA473124829US valid registered\n",
    ),
    ("s10 check CA473124829US", 0, "CA473124829US valid parcel\n"),
    ("s10 check EE473124829US", 0, "EE473124829US valid ems\n"),
    (
        "s10 check VV473124829US",
        0,
        "VV473124829US valid insured\n",
    ),
    ("s10 check LA473124829US", 0, "LA473124829US valid other\n"),
    (
        "s10 check RA000000045GB",
        0,
        "RA000000045GB valid registered\n",
    ),
];

#[test]
fn check_names_the_group_of_a_valid_identifier(rt: HostRuntime) {
    run_cases(&rt, VALID);
}

const LABELS: &[Case] = &[
    (
        "s10 check --label 'ra 473 124 829 us'",
        0,
        "RA473124829US valid registered\n",
    ),
    (
        "s10 check 'ra 473 124 829 us' --label",
        0,
        "RA473124829US valid registered\n",
    ),
    (
        "s10 check --label 'ra 473 124 82x us'",
        1,
        "refused digit 10\n",
    ),
    ("s10 check 'ra 473 124 829 us'", 1, "refused length\n"),
];

#[test]
fn check_reads_a_label_only_if_asked_to(rt: HostRuntime) {
    run_cases(&rt, LABELS);
}

const INVALID: &[Case] = &[
    ("s10 check ''", 1, "refused length\n"),
    ("s10 check RA47312482US", 1, "refused length\n"),
    ("s10 check ra473124829US", 1, "refused letter 0\n"),
    ("s10 check RA473124829Us", 1, "refused letter 12\n"),
    ("s10 check RA47312482XUS", 1, "refused digit 10\n"),
    ("s10 check RA473124828US", 1, "refused check-digit\n"),
    ("s10 check -- -A473124829US", 1, "refused letter 0\n"),
];

#[test]
fn check_names_the_first_fault(rt: HostRuntime) {
    run_cases(&rt, INVALID);
}

const MADE: &[Case] = &[
    ("s10 make RA 00000000 GB", 0, "RA000000005GB\n"),
    ("s10 make RA 00000008 GB", 0, "RA000000080GB\n"),
    ("s10 make RA 99999999 GB", 0, "RA999999995GB\n"),
    ("s10 make RA 12345678 GB", 0, "RA123456785GB\n"),
];

#[test]
fn make_writes_the_identifier_of_its_parts(rt: HostRuntime) {
    run_cases(&rt, MADE);
}

const WRONG_PARTS: &[Case] = &[
    ("s10 make RA 1234567 GB", 1, "refused serial\n"),
    ("s10 make RA 123456789 GB", 1, "refused serial\n"),
    ("s10 make RA 1234567x GB", 1, "refused serial\n"),
    ("s10 make ra 1234567 G", 1, "refused service\n"),
    ("s10 make RAA 00000000 GB", 1, "refused service\n"),
    ("s10 make RA 1234567 G", 1, "refused serial\n"),
    ("s10 make RA 12345678 G", 1, "refused country\n"),
    ("s10 make RA 12345678 G8", 1, "refused country\n"),
];

#[test]
fn make_names_the_first_part_that_is_wrong(rt: HostRuntime) {
    run_cases(&rt, WRONG_PARTS);
}

const REQUESTS: &[Case] = &[
    (
        "s10 show 53310101000000000000000100000007524147420000000000000002",
        0,
        "request grant customer 0 number 1 holder 7 RA GB 00000000 00000002\n",
    ),
    (
        "s10 show 53310102000000070000000152414742",
        0,
        "request draw customer 7 number 1 RA GB\n",
    ),
    (
        "s10 show 5331020500000007000000015241474202",
        0,
        "request draw-many customer 7 number 1 RA GB 2\n",
    ),
    (
        "s10 show 53310206000000000000000200000001",
        0,
        "request withdraw customer 0 number 2 1\n",
    ),
    (
        "s10 show 53310103000000070000000352413030303030303031344742",
        0,
        "request void customer 7 number 3 RA000000014GB\n",
    ),
    (
        "s10 show 53310104000000070000000152413030303030303030354742",
        0,
        "request query customer 7 number 1 RA000000005GB\n",
    ),
];

#[test]
fn show_names_the_parts_of_a_request(rt: HostRuntime) {
    run_cases(&rt, REQUESTS);
}

const REPLIES: &[Case] = &[
    (
        "s10 show 533101810000000000000001000000075241474200000000000000020000000001",
        0,
        "reply grant customer 0 number 1 holder 7 RA GB 00000000 00000002 done range 1\n",
    ),
    (
        "s10 show 5331018100000000000000020000000852414742000000020000000503",
        0,
        "reply grant customer 0 number 2 holder 8 RA GB 00000002 00000005 overlap\n",
    ),
    (
        "s10 show 533101820000000700000001524147420000004E2052413030303030303030354742",
        0,
        "reply draw customer 7 number 1 RA GB done day 20000 RA000000005GB\n",
    ),
    (
        "s10 show 53310285000000070000000152414742020000004e2052413030303030303030354742\
        52413030303030303031344742",
        0,
        "reply draw-many customer 7 number 1 RA GB 2 done day 20000 RA000000005GB RA000000014GB\n",
    ),
    (
        "s10 show 5331018200000007000000045241474205",
        0,
        "reply draw customer 7 number 4 RA GB none-free\n",
    ),
    (
        "s10 show 5331018300000007000000035241303030303030303134474200",
        0,
        "reply void customer 7 number 3 RA000000014GB done\n",
    ),
    (
        "s10 show 5331018300000007000000045241303030303030303134474208",
        0,
        "reply void customer 7 number 4 RA000000014GB already-void\n",
    ),
    (
        "s10 show 5331018400000007000000015241303030303030303035474209",
        0,
        "reply query customer 7 number 1 RA000000005GB number-reused\n",
    ),
    (
        "s10 show 53310184000000070000000952413030303030303031344742000200004e3e",
        0,
        "reply query customer 7 number 9 RA000000014GB done issued 20030\n",
    ),
    (
        "s10 show 53310184000000000000000252413437333132343832395553000000000000",
        0,
        "reply query customer 0 number 2 RA473124829US done unknown\n",
    ),
];

#[test]
fn show_names_the_outcome_of_a_reply(rt: HostRuntime) {
    run_cases(&rt, REPLIES);
}

const WITHDRAWALS: &[Case] = &[
    (
        "s10 show 5331028600000000000000020000000100",
        0,
        "reply withdraw customer 0 number 2 1 done\n",
    ),
    (
        "s10 show 5331028600000000000000020000000101",
        0,
        "reply withdraw customer 0 number 2 1 not-the-post\n",
    ),
    (
        "s10 show 5331028600000000000000020000000109",
        0,
        "reply withdraw customer 0 number 2 1 number-reused\n",
    ),
    (
        "s10 show 533102860000000000000002000000010a",
        0,
        "reply withdraw customer 0 number 2 1 no-such-range\n",
    ),
    (
        "s10 show 533102860000000000000002000000010b",
        0,
        "reply withdraw customer 0 number 2 1 closed\n",
    ),
    // Outcomes that do not fit a withdrawal: an overlap, and a code after the last one.
    (
        "s10 show 5331028600000000000000020000000103",
        1,
        "refused outcome\n",
    ),
    (
        "s10 show 533102860000000000000002000000010c",
        1,
        "refused outcome\n",
    ),
];

#[test]
fn show_names_the_outcome_of_a_withdrawal(rt: HostRuntime) {
    run_cases(&rt, WITHDRAWALS);
}

const WRONG_DATAGRAMS: &[Case] = &[
    ("s10 show ''", 1, "refused short\n"),
    ("s10 show 5331", 1, "refused short\n"),
    (
        "s10 show 53300102000000070000000152414742",
        1,
        "refused magic\n",
    ),
    (
        "s10 show 53310902000000070000000152414742",
        1,
        "refused version\n",
    ),
    (
        "s10 show 53310100000000070000000152414742",
        1,
        "refused kind\n",
    ),
    // Withdrawals are of version 2 only.
    (
        "s10 show 53310106000000000000000200000001",
        1,
        "refused kind\n",
    ),
    (
        "s10 show 533101020000000700000001524147",
        1,
        "refused length\n",
    ),
    (
        "s10 show 533102060000000000000002000000",
        1,
        "refused length\n",
    ),
    (
        "s10 show 53310102000000070000000172614742",
        1,
        "refused field 12\n",
    ),
    // With 80 hex added to its kind, the same datagram is a reply without an outcome.
    (
        "s10 show 53310182000000070000000152414742",
        1,
        "refused length\n",
    ),
    (
        "s10 show 533101820000000700000001524147420a",
        1,
        "refused outcome\n",
    ),
];

#[test]
fn show_names_what_is_wrong_with_a_datagram(rt: HostRuntime) {
    run_cases(&rt, WRONG_DATAGRAMS);
}

const WRONG_DIGITS: &[Case] = &[
    ("s10 show 533", 1, "refused hex\n"),
    ("s10 show 53g1", 1, "refused hex\n"),
    ("s10 show 0x5331", 1, "refused hex\n"),
];

#[test]
fn show_reads_two_digits_for_each_byte(rt: HostRuntime) {
    run_cases(&rt, WRONG_DIGITS);
}

/// Returns whether `count` bytes of value 0 are refused with this line.
fn are_refused_to_be_shown<R: Eprint + AllocGlobal>(rt: &R, count: usize, line: &str) -> bool {
    let Ok(digits) = "00".repeat(rt.alloc(), count) else {
        return false;
    };
    let mut input: &[u8] = b"";
    prints(rt, &["s10", "show", &digits], &mut input, Some(1), line)
}

#[test]
fn show_reads_at_most_512_bytes(rt: HostRuntime) {
    assert!(rt;
        holds(
            &rt,
            &512,
            are_refused_to_be_shown(&rt, 512, "refused magic\n"),
        )
    );
    assert!(rt;
        holds(
            &rt,
            &513,
            are_refused_to_be_shown(&rt, 513, "refused hex\n"),
        )
    );
}

/// The post grants one serial, and customer 7 draws twice, 29 days apart.
const TWO_DRAWS: &[u8] = b"20000 53310101000000000000000100000007524147420000000000000000
20000 53310102000000070000000152414742
20029 53310102000000070000000252414742
";

const NONE_FREE: &str = "533101810000000000000001000000075241474200000000000000000000000001
533101820000000700000001524147420000004e2052413030303030303030354742
5331018200000007000000025241474205
";

const DRAWN_AGAIN: &str = "533101810000000000000001000000075241474200000000000000000000000001
533101820000000700000001524147420000004e2052413030303030303030354742
533101820000000700000002524147420000004e3d52413030303030303030354742
";

const FULL: &str = "533101810000000000000001000000075241474200000000000000000000000001
533101820000000700000001524147420000004e2052413030303030303030354742
faulted full
";

const REPLAYS: &[Case] = &[
    ("s10 replay", 0, NONE_FREE),
    ("s10 replay --interval 30 --limit 3", 0, NONE_FREE),
    ("s10 replay --interval 29", 0, DRAWN_AGAIN),
    ("s10 replay --limit=2", 0, FULL),
];

const NO_REPLAY: &[Case] = &[("s10 replay", 0, "")];

#[test]
fn replay_has_the_interval_and_the_limit_that_are_given(rt: HostRuntime) {
    run_over(&rt, TWO_DRAWS, REPLAYS);
    run_over(&rt, b"", NO_REPLAY);
}

const FIRST_REFUSED: &[Case] = &[("s10 replay", 1, "refused line 1\n")];

const FOURTH_REFUSED: &[Case] = &[(
    "s10 replay",
    1,
    "5331018200000007000000015241474204\ndropped short\nrefused line 4\n",
)];

#[test]
fn replay_names_the_first_refused_line(rt: HostRuntime) {
    run_over(&rt, b"20000 5", FIRST_REFUSED);
    run_over(
        &rt,
        b"1 53310102000000070000000152414742\n\n1 53\n4294967296 53\n1 53\n",
        FOURTH_REFUSED,
    );
}

const NO_COMMAND_LINES: &[Case] = &[
    ("s10", 2, ""),
    ("s10 nothing", 2, ""),
    ("s10 check RA473124829US RA473124829US", 2, ""),
    ("s10 check --strict RA473124829US", 2, ""),
    ("s10 make RA 00000000", 2, ""),
    ("s10 replay --interval 0", 2, ""),
    ("s10 replay --interval 3651", 2, ""),
    ("s10 replay --limit 0", 2, ""),
    ("s10 replay --limit 1000000001", 2, ""),
    ("s10 replay --limit 4294967297", 2, ""),
];

#[test]
fn a_fault_of_the_command_line_prints_nothing_to_the_output(rt: HostRuntime) {
    run_cases(&rt, NO_COMMAND_LINES);
}

/// Returns whether a command line has status 0, and its output begins with this text.
fn prints_at_first<R: Eprint + AllocGlobal>(rt: &R, line: &str, start: &str) -> bool {
    let mut input: &[u8] = b"";
    let mut output = Vec::new(rt.alloc());
    let words = Words::of(line);
    let ended = run_line(rt, words.as_slice(), &mut input, &mut output);
    status_of(&ended) == Some(0) && output.as_slice().starts_with(start.as_bytes())
}

const HELP: &[(&str, &str)] = &[
    ("s10 --version", "s10 "),
    ("s10 --help", "Issue S10 identifiers"),
    ("s10 help", "Issue S10 identifiers"),
    ("s10 help check", "Check an identifier"),
    ("s10 check --help", "Check an identifier"),
    ("s10 help make", "Write the identifier"),
    ("s10 make -h", "Write the identifier"),
    ("s10 show --help", "Show the request or the reply"),
    ("s10 help replay", "Answer the datagrams"),
    (
        "s10 help withdraw",
        "Ask a server, as the post, to close a range for ever",
    ),
    (
        "s10 withdraw --help",
        "Ask a server, as the post, to close a range for ever",
    ),
];

#[test]
fn help_and_the_version_are_printed_if_asked_for(rt: HostRuntime) {
    for (line, start) in HELP {
        assert!(rt; holds(&rt, line, prints_at_first(&rt, line, start)));
    }
}

/// Returns whether a command line fails if nothing can be written.
fn fails_unwritten<R: Eprint + AllocGlobal>(rt: &R, line: &str, mut input: &[u8]) -> bool {
    let words = Words::of(line);
    let ended = run_line(rt, words.as_slice(), &mut input, &mut Refusing);
    status_of(&ended) == Some(3)
}

const WRITING: &[&str] = &[
    "s10 check RA473124829US",
    "s10 check RA473124828US",
    "s10 make RA 00000000 GB",
    "s10 show 53310102000000070000000152414742",
    "s10 help",
];

#[test]
fn a_writer_that_fails_ends_the_line(rt: HostRuntime) {
    for line in WRITING {
        assert!(rt; holds(&rt, line, fails_unwritten(&rt, line, b"")));
    }
}

#[test]
fn a_writer_that_fails_ends_a_replay(rt: HostRuntime) {
    assert!(rt; fails_unwritten(&rt, "s10 replay", b"1 53\n"));
}

/// A reader that gives its bytes and then fails.
#[derive(Drop)]
struct Broken<'a>(&'a [u8]);

impl Read for Broken<'_> {
    fn read(&mut self, buf: &mut [u8]) -> io::Result<usize> {
        if self.0.is_empty() {
            return Err(io::Error::from(io::ErrorKind::Other));
        }
        self.0.read(buf)
    }
}

#[test]
fn a_reader_that_fails_ends_a_replay_after_the_lines_before(rt: HostRuntime) {
    let mut input = Broken(b"1 53\n1 53");
    assert!(rt;
        prints(
            &rt,
            &["s10", "replay"],
            &mut input,
            Some(3),
            "dropped short\ninput\n"
        )
    );
}
