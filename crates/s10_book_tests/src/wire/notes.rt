//! Notes of clients as texts.

use s10_notes::{Notes, TakeFault, check_value, read_notes, write_notes};
use s10_test_help::expect::{holds, is_text};
use s10_wire::Body;
use std::alloc::Global;

/// Texts of notes as earlier versions wrote them, and as each of the clients writes them. The check
/// values are by zlib.
const TEXTS: &[(&str, &str)] = &[
    (
        "{\"customer\": 7, \"next\": 1, \"last\": 999999, \"request\": null}\n",
        "{\"customer\": 7, \"next\": 1, \"last\": 999999, \"request\": null, \"check\": \"74406a83\"}\n",
    ),
    (
        "{\"customer\": 0, \"next\": 0, \"last\": 0, \"request\": null}\n",
        "{\"customer\": 0, \"next\": 0, \"last\": 0, \"request\": null, \"check\": \"5aef99db\"}\n",
    ),
    (
        "{\"customer\": 4294967295, \"next\": 4294967296, \"last\": 4294967295, \"request\": null}\n",
        "{\"customer\": 4294967295, \"next\": 4294967296, \"last\": 4294967295, \"request\": null, \"check\": \"f00510f9\"}\n",
    ),
    (
        "{\"customer\": 7, \"next\": 3, \"last\": 999999, \"request\": \"53310102000000070000000252414742\"}\n",
        "{\"customer\": 7, \"next\": 3, \"last\": 999999, \"request\": \"53310102000000070000000252414742\", \"check\": \"b0454a3c\"}\n",
    ),
    (
        "{\"customer\": 7, \"next\": 3, \"last\": 2, \"request\": \"533102050000000700000002524147420a\"}\n",
        "{\"customer\": 7, \"next\": 3, \"last\": 2, \"request\": \"533102050000000700000002524147420a\", \"check\": \"bc62edac\"}\n",
    ),
    (
        "{\"customer\": 0, \"next\": 6, \"last\": 9, \"request\": \"53310206000000000000000500000001\"}\n",
        "{\"customer\": 0, \"next\": 6, \"last\": 9, \"request\": \"53310206000000000000000500000001\", \"check\": \"93df5726\"}\n",
    ),
];

/// Returns whether the notes in a text are written as another one.
fn is_written_as(alloc: Global, text: &str, written: &str) -> bool {
    let Some(notes) = read_notes(text.as_bytes()) else {
        return false;
    };
    let mut out = Vec::new(alloc);
    write_notes(&notes, &mut out).is_ok() && is_text(out, written.as_bytes())
}

#[test]
fn notes_are_read_and_written(rt: HostRuntime) {
    for (_, text) in TEXTS {
        assert!(rt; holds(&rt, text, is_written_as(rt.alloc(), text, text)));
    }
}

#[test]
fn older_notes_get_a_check_value(rt: HostRuntime) {
    for (older, text) in TEXTS {
        assert!(rt; holds(&rt, older, is_written_as(rt.alloc(), older, text)));
    }
}

/// Texts and their check values. The first is by hand, the second the one that catalogues of CRC name,
/// the others are by zlib.
const CHECK_VALUES: &[(&str, u32)] = &[
    ("", 0),
    ("123456789", 0xCBF4_3926),
    ("a", 0xE8B7_BE43),
    ("\n", 0x32D7_0693),
    ("The quick brown fox jumps over the lazy dog", 0x414F_A339),
];

#[test]
fn check_values_are_those_of_zlib(rt: HostRuntime) {
    for (text, value) in CHECK_VALUES {
        assert!(rt; holds(&rt, text, check_value(text.as_bytes()) == *value));
    }
}

const OTHER_TEXTS: &[&str] = &[
    "",
    "{}\n",
    "null\n",
    // No line feed, a second one, and other spaces.
    "{\"customer\": 7, \"next\": 1, \"last\": 9, \"request\": null}",
    "{\"customer\": 7, \"next\": 1, \"last\": 9, \"request\": null}\n\n",
    "{\"customer\":7, \"next\": 1, \"last\": 9, \"request\": null}\n",
    "{\"customer\": 7,  \"next\": 1, \"last\": 9, \"request\": null}\n",
    // Another order, and a member that is missing.
    "{\"next\": 1, \"customer\": 7, \"last\": 9, \"request\": null}\n",
    "{\"customer\": 7, \"next\": 1, \"last\": 9}\n",
    // Numbers that are none, or too great.
    "{\"customer\": 07, \"next\": 1, \"last\": 9, \"request\": null}\n",
    "{\"customer\": +7, \"next\": 1, \"last\": 9, \"request\": null}\n",
    "{\"customer\": , \"next\": 1, \"last\": 9, \"request\": null}\n",
    "{\"customer\": 4294967296, \"next\": 1, \"last\": 9, \"request\": null}\n",
    "{\"customer\": 7, \"next\": 1, \"last\": 4294967296, \"request\": null}\n",
    "{\"customer\": 7, \"next\": 11, \"last\": 9, \"request\": null}\n",
    // Requests of another customer, with another number, with capital digits, and cut.
    "{\"customer\": 8, \"next\": 3, \"last\": 9, \"request\": \"53310102000000070000000252414742\"}\n",
    "{\"customer\": 7, \"next\": 2, \"last\": 9, \"request\": \"53310102000000070000000252414742\"}\n",
    "{\"customer\": 7, \"next\": 11, \"last\": 19, \"request\": \"5331010200000007000000 0A52414742\"}\n",
    "{\"customer\": 7, \"next\": 11, \"last\": 19, \"request\": \"53310102000000070000000A52414742\"}\n",
    "{\"customer\": 7, \"next\": 3, \"last\": 9, \"request\": \"533101020000000700000002524147\"}\n",
    "{\"customer\": 7, \"next\": 3, \"last\": 9, \"request\": \"5331010200000007000000025241474\"}\n",
    "{\"customer\": 7, \"next\": 3, \"last\": 9, \"request\": \"\"}\n",
    "{\"customer\": 7, \"next\": 3, \"last\": 9, \"request\": 53310102000000070000000252414742}\n",
    // A check value of another text, with another digit, with capitals, in other words, cut, and twice.
    "{\"customer\": 7, \"next\": 2, \"last\": 9, \"request\": null, \"check\": \"3bd6ab45\"}\n",
    "{\"customer\": 7, \"next\": 3, \"last\": 9, \"request\": \"53310102000000070000000252414743\", \"check\": \"89fbbc04\"}\n",
    "{\"customer\": 7, \"next\": 1, \"last\": 9, \"request\": null, \"check\": \"3bd6ab44\"}\n",
    "{\"customer\": 7, \"next\": 1, \"last\": 9, \"request\": null, \"check\": \"3BD6AB45\"}\n",
    "{\"customer\": 7, \"next\": 1, \"last\": 9, \"request\": null, \"check\": 3bd6ab45}\n",
    "{\"customer\": 7, \"next\": 1, \"last\": 9, \"request\": null, \"check\": null}\n",
    "{\"customer\": 7, \"next\": 1, \"last\": 9, \"request\": null,\"check\": \"3bd6ab45\"}\n",
    "{\"customer\": 7, \"next\": 1, \"last\": 9, \"request\": null, \"chock\": \"3bd6ab45\"}\n",
    "{\"customer\": 7, \"next\": 1, \"last\": 9, \"request\": null, \"check\": \"3bd6ab4\"}\n",
    "{\"customer\": 7, \"next\": 1, \"last\": 9, \"request\": null, \"check\": \"3bd6ab45\"",
    "{\"customer\": 7, \"next\": 1, \"last\": 9, \"request\": null, \"check\": \"3bd6ab45\"}",
    "{\"customer\": 7, \"next\": 1, \"last\": 9, \"request\": null, \"check\": \"\"}\n",
    "{\"customer\": 7, \"next\": 1, \"last\": 9, \"request\": null, \"check\": \"3bd6ab45\", \"check\": \"3bd6ab45\"}\n",
    "{\"customer\": 7, \"next\": 1, \"last\": 9, \"request\": null,}\n",
];

#[test]
fn other_texts_are_no_notes(rt: HostRuntime) {
    for text in OTHER_TEXTS {
        assert!(rt; holds(&rt, text, read_notes(text.as_bytes()).is_none()));
    }
}

/// The first and the last number of notes, and what the bodies after the first one get.
#[derive(Clone, Copy)]
struct Numbers {
    first: u32,
    last: u32,
    /// While the request before is open.
    open: TakeFault,
    /// After its reply.
    answered: Result<u64, TakeFault>,
}

const NUMBERS: &[Numbers] = &[
    Numbers {
        first: 1,
        last: 9,
        open: TakeFault::Unanswered,
        answered: Ok(3),
    },
    Numbers {
        first: 4294967295,
        last: 4294967295,
        open: TakeFault::Unanswered,
        answered: Err(TakeFault::NumbersSpent),
    },
];

/// Returns the next number after a body was taken, or why it was not.
fn next_after(notes: &Notes) -> Result<u64, TakeFault> {
    match notes.take(Body::Withdraw { range: 1 }) {
        Ok(taken) => Ok(taken.next()),
        Err(fault) => Err(fault),
    }
}

/// Returns whether the first body gets the first number, and the later ones what is listed.
fn is_numbered(numbers: &Numbers) -> bool {
    let Some(notes) = Notes::new(0, numbers.first, numbers.last) else {
        return false;
    };
    let Ok(taken) = notes.take(Body::Withdraw { range: 1 }) else {
        return false;
    };
    match taken.request() {
        Some(request) if request.number == numbers.first => {}
        _ => return false,
    }
    next_after(&taken) == Err(numbers.open) && next_after(&taken.answered()) == numbers.answered
}

#[test]
fn each_body_gets_a_number_of_its_own(rt: HostRuntime) {
    for numbers in NUMBERS {
        assert!(rt; holds(&rt, &numbers.first, is_numbered(numbers)));
    }
    assert!(rt; Notes::new(0, 2, 1).is_none());
}
