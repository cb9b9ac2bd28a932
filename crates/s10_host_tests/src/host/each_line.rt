//! Command lines that print a line for each line of the input.

use crate::host::command_lines::prints;
use s10_test_help::expect::holds;
use s10_test_help::words::Words;

/// A command line, the input, the exit status, what is printed, and how much of the input is left.
type Case = (&'static str, &'static [u8], u8, &'static str, usize);

const CASES: &[Case] = &[
    ("s10 check", b"", 0, "", 0),
    ("s10 check --label", b"", 0, "", 0),
    ("s10 make", b"", 0, "", 0),
    ("s10 show", b"", 0, "", 0),
    (
        "s10 check",
        b"RA473124829US\nRA473124828US\nra473124829us\n",
        1,
        "RA473124829US valid registered\nrefused check-digit\nrefused letter 0\n",
        0,
    ),
    (
        "s10 check --label",
        b"ra 473 124 829 us\nCA473124829US",
        0,
        "RA473124829US valid registered\nCA473124829US valid parcel\n",
        0,
    ),
    (
        "s10 make",
        b"RA 00000000 GB\nRA 1234567 GB\nRA 00000008 GB\n",
        1,
        "RA000000005GB\nrefused serial\nRA000000080GB\n",
        0,
    ),
    (
        "s10 show",
        b"53310102000000070000000152414742\n",
        0,
        "request draw customer 7 number 1 RA GB\n",
        0,
    ),
    // With its words, a command reads nothing.
    (
        "s10 check RA473124829US",
        b"x\n",
        0,
        "RA473124829US valid registered\n",
        2,
    ),
    ("s10 check ''", b"x\n", 1, "refused length\n", 2),
    ("s10 make RA 00000000 GB", b"x\n", 0, "RA000000005GB\n", 2),
    ("s10 show ''", b"x\n", 1, "refused short\n", 2),
];

#[test]
fn commands_without_their_words_read_lines(rt: HostRuntime) {
    for case in CASES {
        let (line, bytes, status, text, left) = case;
        let words = Words::of(line);
        let mut input = *bytes;
        let is_printed = prints(&rt, words.as_slice(), &mut input, Some(*status), text);
        assert!(rt; holds(&rt, case, is_printed && input.len() == *left));
    }
}

/// Command lines with some words of `make`, and with too many.
const NO_PARTS: &[&str] = &[
    "s10 make RA",
    "s10 make RA 00000000",
    "s10 make RA 00000000 GB GB",
    "s10 check RA473124829US RA473124829US",
    "s10 show 5331 5331",
];

#[test]
fn all_words_are_given_or_none(rt: HostRuntime) {
    for line in NO_PARTS {
        let words = Words::of(line);
        let mut input: &[u8] = b"x\n";
        let is_fault = prints(&rt, words.as_slice(), &mut input, Some(2), "");
        assert!(rt; holds(&rt, line, is_fault && input.len() == 2));
    }
}
