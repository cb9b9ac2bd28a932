//! Replays of inputs over a new ledger.

use s10_history::Settings;
use s10_jobs::{InputFault, JobStatus, replay, run_replay};
use s10_test_help::expect::{holds, is_text};
use std::alloc::Global;
use std::io;
use std::io::{ErrorKind, Read, Write};

fn settings() -> Settings {
    Settings::new(30, 100).unwrap()
}

/// Returns whether a replay over a ledger with these settings has this answer and writes this text.
fn gives<R: Read>(
    alloc: Global,
    settings: Settings,
    input: &mut R,
    want: Result<u32, InputFault>,
    text: &str,
) -> bool {
    let mut output = Vec::new(alloc);
    let answer = replay(alloc, settings, input, &mut output);
    is_text(output, text.as_bytes()) && answer == want
}

/// Returns whether a replay of these bytes has this answer and writes this text.
fn is_replayed(alloc: Global, mut bytes: &[u8], want: Result<u32, InputFault>, text: &str) -> bool {
    gives(alloc, settings(), &mut bytes, want, text)
}

#[test]
fn nine_lines_get_their_nine_lines(rt: HostRuntime) {
    let is_replayed = is_replayed(
        rt.alloc(),
        b"20000 53310101000000000000000100000007524147420000000000000002
20000 53310102000000070000000152414742
20400 53310102000000070000000152414742
20000 53310102000000070000000252414742
20000 53310102000000070000000352414742
20029 53310102000000070000000452414742
20030 53310102000000070000000452414742
20030 53310102000000070000000552414742
20030 533101020000000700000006524147
",
        Ok(9),
        "533101810000000000000001000000075241474200000000000000020000000001
533101820000000700000001524147420000004e2052413030303030303030354742
533101820000000700000001524147420000004e2052413030303030303030354742
533101820000000700000002524147420000004e2052413030303030303031344742
533101820000000700000003524147420000004e2052413030303030303032384742
5331018200000007000000045241474205
5331018200000007000000045241474205
533101820000000700000005524147420000004e3e52413030303030303030354742
dropped length
",
    );
    assert!(rt; is_replayed);
}

#[test]
fn no_identifier_is_issued_from_a_withdrawn_range(rt: HostRuntime) {
    // A draw and the withdrawal of range 1. Then, 400 days later: a draw, a sheet, the first draw
    // again, and a void and a query of its identifier. At last a grant that overlaps range 1, a
    // grant of serial 4, and a draw from range 2.
    let is_replayed = is_replayed(
        rt.alloc(),
        b"20000 53310101000000000000000100000007524147420000000000000002
20000 53310102000000070000000152414742
20000 53310206000000000000000200000001
20400 53310102000000070000000252414742
20400 5331020500000007000000035241474201
20400 53310102000000070000000152414742
20400 53310103000000070000000452413030303030303030354742
20400 53310104000000070000000552413030303030303030354742
20400 53310101000000000000000300000007524147420000000200000004
20400 53310101000000000000000400000007524147420000000400000004
20400 53310102000000070000000652414742
",
        Ok(11),
        "533101810000000000000001000000075241474200000000000000020000000001
533101820000000700000001524147420000004e2052413030303030303030354742
5331028600000000000000020000000100
5331018200000007000000025241474204
533102850000000700000003524147420104
533101820000000700000001524147420000004e2052413030303030303030354742
5331018300000007000000045241303030303030303035474200
53310184000000070000000552413030303030303030354742000300004e20
5331018100000000000000030000000752414742000000020000000403
533101810000000000000004000000075241474200000004000000040000000002
533101820000000700000006524147420000004fb052413030303030303034354742
",
    );
    assert!(rt; is_replayed);
}

#[test]
fn withdrawals_are_done_once_and_by_the_post(rt: HostRuntime) {
    // Withdrawals by customer 7; of ranges 2 and 0; of range 1 twice with one number; of range 1
    // with the next number; of range 2 with the number of range 1's; and with the number of the
    // grant. Then one of version 1, and one that is a byte too short.
    let is_replayed = is_replayed(
        rt.alloc(),
        b"20000 53310101000000000000000100000007524147420000000000000002
20000 53310206000000070000000100000001
20000 53310206000000000000000200000002
20000 53310206000000000000000300000000
20000 53310206000000000000000400000001
20000 53310206000000000000000400000001
20000 53310206000000000000000500000001
20000 53310206000000000000000400000002
20000 53310206000000000000000100000001
20000 53310106000000000000000600000001
20000 533102060000000000000006000001
",
        Ok(11),
        "533101810000000000000001000000075241474200000000000000020000000001
5331028600000007000000010000000101
533102860000000000000002000000020a
533102860000000000000003000000000a
5331028600000000000000040000000100
5331028600000000000000040000000100
533102860000000000000005000000010b
5331028600000000000000040000000209
5331028600000000000000010000000109
dropped kind
dropped length
",
    );
    assert!(rt; is_replayed);
}

/// Bytes of an input, and the answer and the text of its replay.
type Case = (&'static [u8], Result<u32, InputFault>, &'static str);

const SMALL_INPUTS: &[Case] = &[
    (b"", Ok(0), ""),
    (b"20000 ", Ok(1), "dropped short\n"),
    (b"20000 \n", Ok(1), "dropped short\n"),
    (b"20000 5", Err(InputFault::Line(1)), ""),
    (b"20000", Err(InputFault::Line(1)), ""),
    (b" 53", Err(InputFault::Line(1)), ""),
    (b"20000  53", Err(InputFault::Line(1)), ""),
    (b"2000x 53", Err(InputFault::Line(1)), ""),
    (b"20000 5g", Err(InputFault::Line(1)), ""),
    (b"00000020000 53", Err(InputFault::Line(1)), ""),
    (b"0000020000 53", Ok(1), "dropped short\n"),
    (b"4294967295 53", Ok(1), "dropped short\n"),
    (b"4294967296 53", Err(InputFault::Line(1)), ""),
    // Empty lines are counted and skipped, also with a carriage return.
    (b"\n\r\n\n20000 x\n", Err(InputFault::Line(4)), ""),
    (b"\n\r\n\n20000 \r\n", Ok(1), "dropped short\n"),
    (b"20000 \r\r\n", Err(InputFault::Line(1)), ""),
    (
        b"1 \n2 \nx\n4 \n",
        Err(InputFault::Line(3)),
        "dropped short\ndropped short\n",
    ),
    (
        b"1 533001020000000700000001\n1 533103020000000700000001\n1 533101050000000700000001\n",
        Ok(3),
        "dropped magic\ndropped version\ndropped kind\n",
    ),
    (
        b"1 53310102000000070000000172614742\n1 53310102000000070000000152416762",
        Ok(2),
        "dropped field 12\ndropped field 14\n",
    ),
];

#[test]
fn small_inputs_are_read_as_lines(rt: HostRuntime) {
    for (bytes, want, text) in SMALL_INPUTS {
        assert!(rt; holds(&rt, bytes, is_replayed(rt.alloc(), bytes, *want, text)));
    }
}

#[test]
fn hex_digits_of_both_cases_are_read_and_lower_case_is_written(rt: HostRuntime) {
    let is_replayed = is_replayed(
        rt.alloc(),
        b"20000 53310101000000000000000100000007524147420000000A0000000c",
        Ok(1),
        "5331018100000000000000010000000752414742\
0000000a0000000c0000000001\n",
    );
    assert!(rt; is_replayed);
}

/// Returns whether the longest line, a day of ten digits and 512 bytes, is read whole if it has
/// `len` bytes with its end.
fn is_read_whole(alloc: Global, len: usize) -> bool {
    let mut line = [b'0'; 1037];
    line[5] = b'2';
    line[10] = b' ';
    line[1035] = b'\r';
    line[1036] = b'\n';
    is_replayed(alloc, &line[..len.min(1037)], Ok(1), "dropped magic\n")
}

#[test]
fn longest_line_is_read_whole(rt: HostRuntime) {
    assert!(rt; holds(&rt, &1036, is_read_whole(rt.alloc(), 1036)));
    assert!(rt; holds(&rt, &1037, is_read_whole(rt.alloc(), 1037)));
}

/// A digit for each byte of the longest line.
const ZEROS: [u8; 1037] = [b'0'; 1037];

#[test]
fn longer_line_is_refused_without_reading_more(rt: HostRuntime) {
    let line = ZEROS;
    let (read, refused) = (InputFault::Read, InputFault::Line(1));
    assert!(rt;
        holds(
            &rt,
            &1036,
            is_read_until(rt.alloc(), &line[..1036], read, ""),
        )
    );
    assert!(rt; holds(&rt, &1037, is_read_until(rt.alloc(), &line, refused, "")));
}

#[test]
fn longer_line_is_refused_at_the_end_of_the_input(rt: HostRuntime) {
    assert!(rt; is_replayed(rt.alloc(), &ZEROS, Err(InputFault::Line(1)), ""));
}

#[test]
fn full_ledger_is_reported(rt: HostRuntime) {
    // The post grants range 1 to customer 7: RA GB 0 to 2. Customer 7 draws, draws again, and
    // repeats the first draw.
    let mut input: &[u8] = b"20000 53310101000000000000000100000007524147420000000000000002
20000 53310102000000070000000152414742
20000 53310102000000070000000252414742
20000 53310102000000070000000152414742
";
    let text = "533101810000000000000001000000075241474200000000000000020000000001
533101820000000700000001524147420000004e2052413030303030303030354742
faulted full
533101820000000700000001524147420000004e2052413030303030303030354742
";
    let settings = Settings::new(30, 2).unwrap();
    assert!(rt; gives(rt.alloc(), settings, &mut input, Ok(4), text));
}

/// A reader that fails after its bytes, and is interrupted three times before each read.
#[derive(Drop)]
pub(crate) struct Failing<'a> {
    pub(crate) bytes: &'a [u8],
    /// How often it is interrupted before its next read.
    pub(crate) interruptions: u32,
}

impl Read for Failing<'_> {
    fn read(&mut self, buf: &mut [u8]) -> io::Result<usize> {
        if self.interruptions > 0 {
            self.interruptions -= 1;
            return Err(io::Error::from(ErrorKind::Interrupted));
        }
        self.interruptions = 3;
        if self.bytes.is_empty() {
            return Err(io::Error::from(ErrorKind::Other));
        }
        self.bytes.read(buf)
    }
}

/// A writer that accepts n bytes.
#[derive(Drop)]
pub(crate) struct Narrow {
    /// The number of bytes that it still accepts.
    pub(crate) room: usize,
}

impl Write for Narrow {
    fn write(&mut self, buf: &[u8]) -> io::Result<usize> {
        if buf.len() > self.room {
            return Err(io::Error::from(ErrorKind::Other));
        }
        self.room -= buf.len();
        Ok(buf.len())
    }

    fn flush(&mut self) -> io::Result<()> {
        Ok(())
    }
}

/// Returns whether a replay of a reader that fails after these bytes ends with this fault and
/// writes this text.
fn is_read_until(alloc: Global, bytes: &[u8], want: InputFault, text: &str) -> bool {
    let mut input = Failing {
        bytes,
        interruptions: 3,
    };
    gives(alloc, settings(), &mut input, Err(want), text)
}

const SHORT: &str = "dropped short\n";

/// Bytes of an input, the answer of its replay if the input ends after them, the fault if it fails
/// there, and the text. Nothing is read after a refused line, so answer and fault agree there.
type Stop = (
    &'static [u8],
    Result<u32, InputFault>,
    InputFault,
    &'static str,
);

const STOPS: &[Stop] = &[
    (b"", Ok(0), InputFault::Read, ""),
    (b"20000 \n", Ok(1), InputFault::Read, SHORT),
    (b"20000 \n\r\n", Ok(1), InputFault::Read, SHORT),
    (b"\r", Ok(0), InputFault::Read, ""),
    // The last line is refused, without its line feed and with it.
    (
        b"20000 \n20000 5",
        Err(InputFault::Line(2)),
        InputFault::Read,
        SHORT,
    ),
    (
        b"20000 \n20000 5\n",
        Err(InputFault::Line(2)),
        InputFault::Line(2),
        SHORT,
    ),
    // A line before others is refused.
    (
        b"20000 5\n20000 \n",
        Err(InputFault::Line(1)),
        InputFault::Line(1),
        "",
    ),
    (
        b"20000 \nx\n",
        Err(InputFault::Line(2)),
        InputFault::Line(2),
        SHORT,
    ),
    (
        b"20000 \n\nx\ny\n20000 ",
        Err(InputFault::Line(3)),
        InputFault::Line(3),
        SHORT,
    ),
];

/// Returns whether a replay has this answer if the input ends after these bytes, and this fault if
/// it fails there.
fn stops_there(
    alloc: Global,
    bytes: &[u8],
    ends: Result<u32, InputFault>,
    fails: InputFault,
    text: &str,
) -> bool {
    is_replayed(alloc, bytes, ends, text) && is_read_until(alloc, bytes, fails, text)
}

#[test]
fn a_refused_line_is_not_reported_as_unreadable_input(rt: HostRuntime) {
    for (bytes, ends, fails, text) in STOPS {
        let stops = stops_there(rt.alloc(), bytes, *ends, *fails, text);
        assert!(rt; holds(&rt, bytes, stops));
    }
}

/// Returns whether a replay of a reader that fails after these bytes has this status and writes
/// this text.
fn is_run_until(alloc: Global, bytes: &[u8], want: JobStatus, text: &str) -> bool {
    let mut input = Failing {
        bytes,
        interruptions: 3,
    };
    let mut output = Vec::new(alloc);
    let status = run_replay(alloc, settings(), &mut input, &mut output);
    is_text(output, text.as_bytes()) && status == Ok(want)
}

/// Bytes of an input that fails after them, and the status and the text of its replay.
const UNREADABLE: &[(&[u8], JobStatus, &str)] = &[
    (b"20000 \n", JobStatus::Failed, "dropped short\ninput\n"),
    (
        b"20000 \n20000 5",
        JobStatus::Failed,
        "dropped short\ninput\n",
    ),
    (
        b"20000 \n20000 5\n",
        JobStatus::Refused,
        "dropped short\nrefused line 2\n",
    ),
];

#[test]
fn an_input_that_fails_has_its_line_and_status(rt: HostRuntime) {
    for (bytes, status, text) in UNREADABLE {
        assert!(rt; holds(&rt, bytes, is_run_until(rt.alloc(), bytes, *status, text)));
    }
}

/// Returns whether a replay of two lines to a writer that accepts `room` bytes has this answer.
fn is_replayed_into(alloc: Global, room: usize, want: Result<u32, InputFault>) -> bool {
    let mut input: &[u8] = b"20000 \n20000 \n";
    replay(alloc, settings(), &mut input, &mut Narrow { room }) == want
}

/// The number of bytes that a writer accepts, and the answer of a replay of two lines.
const ROOMS: &[(usize, Result<u32, InputFault>)] = &[
    (0, Err(InputFault::Write)),
    (13, Err(InputFault::Write)),
    (14, Err(InputFault::Write)),
    (27, Err(InputFault::Write)),
    (28, Ok(2)),
];

#[test]
fn writer_that_fails_ends_the_replay(rt: HostRuntime) {
    for (room, want) in ROOMS {
        assert!(rt; holds(&rt, room, is_replayed_into(rt.alloc(), *room, *want)));
    }
}
