//! Requests that are asked by notes, over a folder that may stop at any call.

use crate::jobs::stopping_folder::{Stop, StoppingFolder};
use crate::links::{Meets, link_of};
use s10_jobs::{JobStatus, Tries, ask_again, ask_by_notes};
use s10_link::Peer;
use s10_notes::{Names, Notebook, Notes, NotesFault, NotesFile};
use s10_test_help::asked::Asked;
use s10_test_help::datagrams::DRAWN;
use s10_test_help::expect::{holds, is_text};
use std::alloc::Global;

const SERVER: Peer = Peer {
    ip: [10, 0, 0, 1],
    port: 4711,
};

const REPLY: &str = "reply draw customer 7 number 1 RA GB done day 20000 RA000000005GB\n";

const REPLY_UNRECORDED: &str =
    "reply draw customer 7 number 1 RA GB done day 20000 RA000000005GB\nnotes store\n";

/// Customer 7's notes: before the first draw, while it is open, after its reply, and with no number
/// left.
const NEW: &str =
    "{\"customer\": 7, \"next\": 1, \"last\": 9, \"request\": null, \"check\": \"3bd6ab45\"}\n";

const OPEN: &str =
    "{\"customer\": 7, \"next\": 2, \"last\": 9, \"request\": \"53310102000000070000000152414742\", \"check\": \"0b8002f6\"}\n";

const ANSWERED: &str =
    "{\"customer\": 7, \"next\": 2, \"last\": 9, \"request\": null, \"check\": \"9edec029\"}\n";

const SPENT: &str =
    "{\"customer\": 7, \"next\": 10, \"last\": 9, \"request\": null, \"check\": \"e465db13\"}\n";

/// The first of these as earlier versions wrote it, without a check value, and with a changed digit.
const OLDER: &str = "{\"customer\": 7, \"next\": 1, \"last\": 9, \"request\": null}\n";

const CHANGED: &str =
    "{\"customer\": 8, \"next\": 1, \"last\": 9, \"request\": null, \"check\": \"3bd6ab45\"}\n";

/// The calls of an opening.
const OPENING: u32 = 3;

/// A draw by notes, or the open request again.
#[derive(Clone, Copy, Debug)]
struct Case {
    is_draw: bool,
    /// The text of the notes.
    notes: &'static str,
    /// The calls of the folder after the opening and before one fails.
    left: u32,
    /// Whether that call is made, though it fails.
    does_last: bool,
    /// Whether the reply arrives.
    is_answered: bool,
    sends: usize,
    status: JobStatus,
    line: &'static str,
    /// The text of the notes after a stop of the process, and after one of the machine.
    shown: &'static str,
    kept: &'static str,
}

const ASKED: Case = Case {
    is_draw: true,
    notes: NEW,
    left: 12,
    does_last: false,
    is_answered: true,
    sends: 1,
    status: JobStatus::Done,
    line: REPLY,
    shown: ANSWERED,
    kept: ANSWERED,
};

/// A stop before the request is sent.
const UNSENT: Case = Case {
    sends: 0,
    status: JobStatus::Failed,
    line: "notes store\n",
    shown: NEW,
    kept: NEW,
    ..ASKED
};

/// A stop after the reply was printed.
const UNRECORDED: Case = Case {
    status: JobStatus::Failed,
    line: REPLY_UNRECORDED,
    shown: OPEN,
    kept: OPEN,
    ..ASKED
};

const STOPS: &[Case] = &[
    // At the calls that write the request down: the names are counted, the file beside is emptied,
    // written, synced and renamed, and the names are synced. A name that is not synced is found only
    // if the machine goes on.
    Case { left: 0, ..UNSENT },
    Case { left: 1, ..UNSENT },
    Case {
        left: 1,
        does_last: true,
        ..UNSENT
    },
    Case { left: 2, ..UNSENT },
    Case {
        left: 2,
        does_last: true,
        ..UNSENT
    },
    Case { left: 3, ..UNSENT },
    Case {
        left: 3,
        does_last: true,
        ..UNSENT
    },
    Case { left: 4, ..UNSENT },
    Case {
        left: 4,
        does_last: true,
        shown: OPEN,
        ..UNSENT
    },
    Case {
        left: 5,
        shown: OPEN,
        ..UNSENT
    },
    Case {
        left: 5,
        does_last: true,
        shown: OPEN,
        kept: OPEN,
        ..UNSENT
    },
    // At those that record the reply.
    Case {
        left: 6,
        ..UNRECORDED
    },
    Case {
        left: 7,
        ..UNRECORDED
    },
    Case {
        left: 7,
        does_last: true,
        ..UNRECORDED
    },
    Case {
        left: 8,
        ..UNRECORDED
    },
    Case {
        left: 9,
        ..UNRECORDED
    },
    Case {
        left: 10,
        ..UNRECORDED
    },
    Case {
        left: 10,
        does_last: true,
        shown: ANSWERED,
        ..UNRECORDED
    },
    Case {
        left: 11,
        shown: ANSWERED,
        ..UNRECORDED
    },
    Case {
        left: 11,
        does_last: true,
        shown: ANSWERED,
        kept: ANSWERED,
        ..UNRECORDED
    },
    ASKED,
];

const CASES: &[Case] = &[
    // No reply: the request stays open.
    Case {
        is_answered: false,
        status: JobStatus::Failed,
        line: "gave-up\n",
        shown: OPEN,
        kept: OPEN,
        ..ASKED
    },
    // A draw while a request is open, and with no number left.
    Case {
        notes: OPEN,
        sends: 0,
        status: JobStatus::Refused,
        line: "refused unanswered\n",
        shown: OPEN,
        kept: OPEN,
        ..ASKED
    },
    Case {
        notes: SPENT,
        sends: 0,
        status: JobStatus::Refused,
        line: "refused numbers-spent\n",
        shown: SPENT,
        kept: SPENT,
        ..ASKED
    },
    // A draw by older notes.
    Case {
        notes: OLDER,
        ..ASKED
    },
    // The open request again, which is then recorded as answered, and no open request.
    Case {
        is_draw: false,
        notes: OPEN,
        ..ASKED
    },
    Case {
        is_draw: false,
        notes: ANSWERED,
        sends: 0,
        status: JobStatus::Refused,
        line: "refused answered\n",
        ..ASKED
    },
];

/// Returns whether the notes have these texts after a stop.
fn leaves(folder: &StoppingFolder, shown: &str, kept: &str) -> bool {
    folder.text_after(Stop::Process) == shown.as_bytes()
        && folder.text_after(Stop::Machine) == kept.as_bytes()
}

/// Returns whether a case sends, prints and leaves what it says.
fn is_as_listed(alloc: Global, case: &Case) -> bool {
    let left = OPENING.saturating_add(case.left);
    let folder = StoppingFolder::new(Names::One, case.notes.as_bytes(), left, case.does_last);
    let Ok(mut notes) = NotesFile::open(folder) else {
        return false;
    };
    let receipts: &[Meets] = if case.is_answered {
        &[Meets::Bytes(SERVER, DRAWN)]
    } else {
        &[Meets::Nothing]
    };
    let Ok(mut link) = link_of(alloc, receipts, &[true]) else {
        return false;
    };
    let tries = Tries::new(1).unwrap();
    let mut out = Vec::new(alloc);
    let asked = if case.is_draw {
        let body = Asked::Draw.body();
        ask_by_notes(&mut notes, &mut link, SERVER, body, tries, &mut out)
    } else {
        ask_again(&mut notes, &mut link, SERVER, tries, &mut out)
    };
    asked == Ok(case.status)
        && is_text(out, case.line.as_bytes())
        && link.log().len() == case.sends
        && leaves(&notes.folder, case.shown, case.kept)
}

#[test]
fn a_request_by_notes_survives_a_stop_at_each_call(rt: HostRuntime) {
    for case in STOPS {
        assert!(rt; holds(&rt, case, is_as_listed(rt.alloc(), case)));
    }
}

#[test]
fn a_request_by_notes_is_asked_or_refused(rt: HostRuntime) {
    for case in CASES {
        assert!(rt; holds(&rt, case, is_as_listed(rt.alloc(), case)));
    }
}

/// Returns whether notes with this text and these names cannot be opened, if the folder stops after
/// these calls.
fn is_unopened(names: Names, text: &str, left: u32, fault: NotesFault) -> bool {
    match NotesFile::open(StoppingFolder::new(names, text.as_bytes(), left, true)) {
        Ok(_) => false,
        Err(refusal) => refusal.fault == fault,
    }
}

#[test]
fn notes_are_opened_only_after_their_names_are_counted_and_synced(rt: HostRuntime) {
    assert!(rt; is_unopened(Names::One, NEW, 0, NotesFault::Store));
    assert!(rt; is_unopened(Names::One, NEW, 1, NotesFault::Store));
    assert!(rt; is_unopened(Names::One, NEW, 2, NotesFault::Store));
    assert!(rt; is_unopened(Names::One, "", OPENING, NotesFault::Damaged));
    assert!(rt; is_unopened(Names::One, CHANGED, OPENING, NotesFault::Damaged));
    assert!(rt; is_unopened(Names::Zero, "", OPENING, NotesFault::Missing));
    assert!(rt; is_unopened(Names::More, NEW, OPENING, NotesFault::Linked));
}

/// Returns whether notes that were opened with one name are not replaced when they have these names.
fn is_kept(names: Names, fault: NotesFault) -> bool {
    let folder = StoppingFolder::new(Names::One, NEW.as_bytes(), 99, false);
    let Ok(mut file) = NotesFile::open(folder) else {
        return false;
    };
    file.folder.set_names(names);
    let is_refused = match Notes::new(7, 5, 9) {
        Some(notes) => file.replace(&notes) == Err(fault),
        None => false,
    };
    is_refused && leaves(&file.folder, NEW, NEW)
}

#[test]
fn notes_with_another_name_are_not_replaced(rt: HostRuntime) {
    assert!(rt; is_kept(Names::More, NotesFault::Linked));
    assert!(rt; is_kept(Names::Zero, NotesFault::Missing));
}

/// Returns whether new notes leave these texts, if the folder stops after these calls.
fn are_created(left: u32, shown: &str, kept: &str) -> bool {
    let Some(notes) = Notes::new(7, 1, 9) else {
        return false;
    };
    match NotesFile::create(StoppingFolder::new(Names::Zero, b"", left, false), &notes) {
        Ok(file) => left >= 6 && leaves(&file.folder, shown, kept),
        Err(refusal) => {
            left < 6 && refusal.fault == NotesFault::Store && leaves(&refusal.folder, shown, kept)
        }
    }
}

#[test]
fn new_notes_are_on_disk(rt: HostRuntime) {
    assert!(rt; are_created(0, "", ""));
    assert!(rt; are_created(4, "", ""));
    assert!(rt; are_created(5, NEW, ""));
    assert!(rt; are_created(6, NEW, NEW));
}

/// Returns whether new notes are refused, and the file at their path stays.
fn is_taken(names: Names) -> bool {
    let Some(notes) = Notes::new(7, 5, 9) else {
        return false;
    };
    match NotesFile::create(
        StoppingFolder::new(names, NEW.as_bytes(), 99, false),
        &notes,
    ) {
        Ok(_) => false,
        Err(refusal) => refusal.fault == NotesFault::Taken && leaves(&refusal.folder, NEW, NEW),
    }
}

#[test]
fn new_notes_replace_no_file(rt: HostRuntime) {
    assert!(rt; is_taken(Names::One));
    assert!(rt; is_taken(Names::More));
}
