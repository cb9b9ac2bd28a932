//! Snapshots of a ledger's two files, over readings that follow a script and over real files.

ghost use Rattle.std.specs.Prelude.{◌≡◌, ◌∷◌, [], reverse};

use http_server::Log;
use s10_snapshot::{
    HostSource, LedgerBytes, Part, ReadCall, ReadFault, SnapshotFault, Source, take_snapshot,
};
use s10_test_help::expect::holds;
use std::alloc::Global;
use std::fs;
use std::os::unix::fs::symlink;

/// What a call returns.
type Answer = Result<&'static str, ReadFault>;

/// What the calls of a reading return: the header before, the file, the log and the header after.
type Step = (Answer, Answer, Answer, Answer);

/// The header of a log, and the one under which a checkpoint restarts it.
const FIRST: Answer = Ok("the first header of thirty-two b");

const SECOND: Answer = Ok("the other header of thirty-two b");

const LOG: &str = "the first header of thirty-two b and a frame";

const NONE: Answer = Err(ReadFault::Missing);

const WHOLE: Step = (FIRST, Ok("file"), Ok(LOG), FIRST);

/// Without a log, with an empty one, and with one that is shorter than a header.
const BARE: Step = (NONE, Ok("file"), NONE, NONE);

const EMPTY: Step = (Ok(""), Ok("file"), Ok(""), Ok(""));

const SHORT: Step = (Ok("short"), Ok("file"), Ok("short"), Ok("short"));

/// A checkpoint restarted the log: after it was read, before it, and while it was read.
const LATE: Step = (FIRST, Ok("torn"), Ok(LOG), SECOND);

const EARLY: Step = (SECOND, Ok("torn"), Ok(LOG), FIRST);

const BETWEEN: Step = (SECOND, Ok("torn"), Ok(LOG), SECOND);

/// A log that was created or removed meanwhile.
const CREATED: Step = (NONE, Ok("torn"), Ok(LOG), FIRST);

const REMOVED: Step = (NONE, Ok("torn"), Ok(LOG), NONE);

/// Without a file. A file that cannot be read, and a log that cannot.
const NOTHING: Step = (NONE, NONE, NONE, NONE);

const NO_FILE: Step = (FIRST, Err(ReadFault::Store), Ok(LOG), FIRST);

const NO_HEADER: Step = (Err(ReadFault::Store), Ok("file"), Ok(LOG), FIRST);

const NO_LOG: Step = (FIRST, Ok("file"), Err(ReadFault::Memory), FIRST);

const NO_HEADER_AGAIN: Step = (FIRST, Ok("file"), Ok(LOG), Err(ReadFault::Store));

/// A source whose readings follow a script. After its end, or if another file is read, they fail.
#[derive(Drop)]
struct Scripted<'a> {
    alloc: Global,
    steps: &'a [Step],
    // The index of the step that is next, and the calls that were made of it.
    at: usize,
    made: u8,
    log: Log<ReadCall, Result<Vec<u8>, ReadFault>>,
}

fn bytes_of(alloc: Global, text: &str) -> Result<Vec<u8>, ReadFault> {
    let mut bytes = Vec::new(alloc);
    match bytes.extend_from_slice(text.as_bytes()) {
        Ok(()) => Ok(bytes),
        Err(_) => Err(ReadFault::Memory),
    }
}

/// Returns what a call of a step returns, if it is the one that a reading makes there.
fn answer_of(step: Step, made: u8, call: ReadCall) -> Answer {
    let (wanted, answer) = match made {
        0 => ((Part::Log, 32), step.0),
        1 => ((Part::File, u64::MAX), step.1),
        2 => ((Part::Log, u64::MAX), step.2),
        _ => ((Part::Log, 32), step.3),
    };
    if (call.part, call.most) == wanted {
        answer
    } else {
        Err(ReadFault::Store)
    }
}

impl Scripted<'_> {
    /// Goes on to the next call, or after the last one or one that failed to the next step.
    fn go_on(&mut self, call: ReadCall, answer: Answer)
        ensures { self.new.log ≡ self.old.log }
    {
        let fails = match answer {
            Ok(_) => false,
            Err(fault) => call.part == Part::File || fault != ReadFault::Missing,
        };
        if fails || self.made >= 3 {
            self.made = 0;
            self.at = self.at.saturating_add(1);
        } else {
            self.made += 1;
        }
    }

    /// Logs a call and what it returned.
    fn log_call(&mut self, call: ReadCall, read: &Result<Vec<u8>, ReadFault>)
        ensures { reverse self.new.log.items ≡ (call, read.now) ∷ reverse self.old.log.items }
    {
        self.log = self.log.and(&call, read);
    }
}

impl Source for Scripted<'_> {
    ghost path = { λ s. [] };

    ghost calls = { λ s. reverse s.log.items };

    fn read(&mut self, part: Part, most: u64) -> Result<Vec<u8>, ReadFault> {
        let call = ReadCall { part, most };
        let answer = match self.steps.get(self.at) {
            Some(step) => answer_of(*step, self.made, call),
            None => Err(ReadFault::Store),
        };
        self.go_on(call, answer);
        let read = match answer {
            Ok(text) => bytes_of(self.alloc, text),
            Err(fault) => Err(fault),
        };
        self.log_call(call, &read);
        read
    }
}

/// A script, how many of its readings are made, and what they come to: the file and the log that are
/// taken, or the fault.
type Script = (
    &'static [Step],
    usize,
    Result<(&'static str, &'static str), SnapshotFault>,
);

const SCRIPTS: &[Script] = &[
    (&[WHOLE, LATE], 1, Ok(("file", LOG))),
    (&[BARE], 1, Ok(("file", ""))),
    (&[EMPTY], 1, Ok(("file", ""))),
    (&[SHORT], 1, Ok(("file", "short"))),
    (&[LATE, EARLY, BETWEEN, WHOLE], 4, Ok(("file", LOG))),
    (&[CREATED, REMOVED, BARE], 3, Ok(("file", ""))),
    (
        &[LATE, LATE, LATE, LATE, LATE, LATE, LATE, LATE, LATE, WHOLE],
        10,
        Ok(("file", LOG)),
    ),
    (
        &[
            LATE, LATE, LATE, LATE, LATE, LATE, LATE, LATE, LATE, LATE, WHOLE,
        ],
        10,
        Err(SnapshotFault::Busy),
    ),
    (&[LATE, NOTHING, WHOLE], 2, Err(MISSING)),
    (&[NO_FILE, WHOLE], 1, Err(STORE)),
    (&[NO_HEADER, WHOLE], 1, Err(STORE)),
    (
        &[NO_LOG, WHOLE],
        1,
        Err(SnapshotFault::Unread(ReadFault::Memory)),
    ),
    (&[LATE, NO_HEADER_AGAIN, WHOLE], 2, Err(STORE)),
];

fn is_taken(
    taken: Result<LedgerBytes, SnapshotFault>,
    wanted: Result<(&str, &str), SnapshotFault>,
) -> bool {
    match (taken, wanted) {
        (Ok(bytes), Ok((file, log))) => {
            bytes.file.as_slice() == file.as_bytes() && bytes.log.as_slice() == log.as_bytes()
        }
        (Err(fault), Err(other)) => fault == other,
        _ => false,
    }
}

fn comes_to(alloc: Global, script: &Script) -> bool {
    let (steps, made, wanted) = *script;
    let mut source = Scripted {
        alloc,
        steps,
        at: 0,
        made: 0,
        log: Log::new(),
    };
    let taken = take_snapshot(alloc, &mut source);
    is_taken(taken, wanted) && source.at == made
}

#[test]
fn files_are_read_until_the_log_is_not_begun_anew(rt: HostRuntime) {
    for script in SCRIPTS {
        assert!(rt; holds(&rt, script, comes_to(rt.alloc(), script)));
    }
}

const FOLDER: &str = "snapshots_test";

const FILE: &str = "snapshots_test/ledger";

const LOG_FILE: &str = "snapshots_test/ledger-wal";

/// Returns what a snapshot of the file comes to.
fn is_taken_of(rt: &HostRuntime, path: &str, wanted: Result<(&str, &str), SnapshotFault>) -> bool {
    let mut source = HostSource::new(rt, path);
    is_taken(take_snapshot(rt.alloc(), &mut source), wanted)
}

const MISSING: SnapshotFault = SnapshotFault::Unread(ReadFault::Missing);

const STORE: SnapshotFault = SnapshotFault::Unread(ReadFault::Store);

const LINK: &str = "snapshots_test/link/ledger";

const LINK_LOG: &str = "snapshots_test/link/ledger-wal";

/// Returns whether a missing ledger, one without a log and one with a log are read as they are.
fn are_read(rt: &HostRuntime) -> bool {
    is_taken_of(rt, FILE, Err(MISSING))
        && is_taken_of(rt, "snapshots_test/nowhere/ledger", Err(STORE))
        && is_taken_of(rt, FOLDER, Err(STORE))
        && fs::write(rt, FILE, "file").is_ok()
        && is_taken_of(rt, FILE, Ok(("file", "")))
        && fs::write(rt, LOG_FILE, LOG).is_ok()
        && is_taken_of(rt, FILE, Ok(("file", LOG)))
}

/// Returns whether the log is that beside the target of a symbolic link, and not the one beside the
/// link.
fn are_linked(rt: &HostRuntime) -> bool {
    fs::create_dir(rt, "snapshots_test/link").is_ok()
        && symlink(rt, "../ledger", LINK).is_ok()
        && fs::write(rt, LINK_LOG, "another log").is_ok()
        && is_taken_of(rt, LINK, Ok(("file", LOG)))
}

/// Returns whether a log that cannot be read is a fault.
fn is_unread(rt: &HostRuntime) -> bool {
    fs::remove_file(rt, LOG_FILE).is_ok()
        && fs::create_dir(rt, LOG_FILE).is_ok()
        && is_taken_of(rt, FILE, Err(STORE))
        && is_taken_of(rt, LINK, Err(STORE))
}

#[test]
fn the_files_of_a_ledger_are_read_as_they_are(rt: HostRuntime) {
    let _ = fs::remove_dir_all(&rt, FOLDER);
    assert!(rt; fs::create_dir(&rt, FOLDER).is_ok());
    assert!(rt; are_read(&rt));
    assert!(rt; are_linked(&rt));
    assert!(rt; is_unread(&rt));
    let _ = fs::remove_dir_all(&rt, FOLDER);
}
