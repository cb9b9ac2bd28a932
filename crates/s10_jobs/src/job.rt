//! Lists the jobs that a command line asks for.
use crate::look::Look;
use crate::question::Question;
use crate::report_kind::ReportKind;
use crate::tries::Tries;
use crate::turn_options::TurnOptions;
use s10_history::Settings;

/// A subcommand that needs files, sockets or the clock, with its texts as they were given.
///
/// A `day` that is not given is the clock's.
#[derive(Clone, Copy, Debug, PartialEq, Eq)]
pub enum Job<'a> {
    /// The creation of an empty ledger.
    Create {
        ledger: &'a str,
        settings: Settings,
    },
    /// A server of a ledger, for the turns of the options, or until the file `until` is there.
    Serve {
        ledger: &'a str,
        bind: &'a str,
        options: TurnOptions,
        until: Option<&'a str>,
    },
    /// A call of a server: `grant`, `draw`, `void`, `query` or `withdraw`.
    Ask(Question<'a>),
    /// The creation of the notes of a client, with the numbers `first` to `last`.
    Notes {
        file: &'a str,
        customer: u32,
        first: u32,
        last: u32,
    },
    /// The open request of notes, asked again.
    Again {
        to: &'a str,
        notes: &'a str,
        tries: Tries,
    },
    /// A report of a ledger.
    Report {
        ledger: &'a str,
        kind: ReportKind,
        day: Option<u32>,
    },
    /// An audit of a ledger.
    Audit {
        ledger: &'a str,
    },
    /// A look at a snapshot of a ledger, which another process may serve.
    Snapshot {
        ledger: &'a str,
        look: Look,
    },
    /// A copy of a ledger, which another process may serve, in a new pair of files.
    Copy {
        ledger: &'a str,
        to: &'a str,
    },
    /// A server and a client of this process, over two sockets.
    Loop {
        day: Option<u32>,
    },
}
