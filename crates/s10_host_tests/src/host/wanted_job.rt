//! The jobs that command lines are expected to ask for, in plain numbers and texts. So a table of them
//! can be a constant.

use s10_history::Settings;
use s10_jobs::{Asker, BodyWords, Job, Look, Question, ReportKind, Tries, TurnOptions};
use s10_reports::{IssueFilter, IssuesReport, RangeFilter, ReportFormat};
use s10_test_help::samples::{serial, sheet};

/// The job that a command line is expected to ask for.
#[derive(Clone, Copy, Debug)]
pub enum WantedJob {
    /// None.
    Nothing,
    /// The creation of a ledger, with its interval and its limit.
    Create(&'static str, u32, u32),
    /// A server.
    Serve(WantedServer),
    /// A call of a server.
    Ask(WantedCall),
    /// A call of a server with the next number of these notes.
    AskByNotes(&'static str, WantedCall),
    /// The creation of notes, with their customer and their numbers.
    Notes(&'static str, u32, u32, u32),
    /// The open request of notes, asked again: the server, the notes and the tries.
    Again(&'static str, &'static str, u32),
    /// A report of a ledger, with its day.
    Report(&'static str, WantedReport, Option<u32>),
    /// A report of a snapshot of a ledger, with its day.
    SnapshotReport(&'static str, WantedReport, Option<u32>),
    /// An audit of a ledger.
    Audit(&'static str),
    /// An audit of a snapshot of a ledger.
    SnapshotAudit(&'static str),
    /// A copy of a ledger, and where it is written.
    Copy(&'static str, &'static str),
    /// A loop, with its day.
    Loop(Option<u32>),
}

/// A server.
#[derive(Clone, Copy, Debug)]
pub struct WantedServer {
    /// The ledger.
    pub ledger: &'static str,
    /// The address.
    pub bind: &'static str,
    /// The options of its turns.
    pub options: TurnOptions,
    /// The file that ends the turns.
    pub until: Option<&'static str>,
}

/// A call of a server with its number.
#[derive(Clone, Copy, Debug)]
pub struct WantedCall {
    /// The address of the server.
    pub to: &'static str,
    /// The customer.
    pub customer: u32,
    /// The number of the request.
    pub number: u32,
    /// The body of the request.
    pub body: WantedBody,
    /// The maximum number of tries.
    pub tries: u32,
}

/// The body of a request.
#[derive(Clone, Copy, Debug)]
pub enum WantedBody {
    /// A grant.
    Grant(WantedGrant),
    /// A draw, of a service and a country.
    Draw(&'static str, &'static str),
    /// A draw of this many identifiers.
    DrawMany(&'static str, &'static str, u8),
    /// A withdrawal of a range.
    Withdraw(u32),
    /// A void of an identifier.
    Void(&'static str),
    /// A query of an identifier.
    Query(&'static str),
}

/// A grant.
#[derive(Clone, Copy, Debug)]
pub struct WantedGrant {
    /// The holder.
    pub holder: u32,
    /// The service.
    pub service: &'static str,
    /// The country.
    pub country: &'static str,
    /// The first serial.
    pub first: u32,
    /// The last serial.
    pub last: u32,
}

/// A kind of report.
#[derive(Clone, Copy, Debug)]
pub enum WantedReport {
    /// The ranges. The days of the filter say nothing.
    Ranges(WantedFilter, ReportFormat),
    /// The issues.
    Issues(WantedFilter, ReportFormat),
    /// The whole ledger.
    Info,
}

/// A filter of a report.
#[derive(Clone, Copy, Debug)]
pub struct WantedFilter {
    /// The customer.
    pub customer: Option<u32>,
    /// The range.
    pub range: Option<u32>,
    /// The first day.
    pub from_day: Option<u32>,
    /// The last day.
    pub to_day: Option<u32>,
}

impl WantedJob {
    /// Returns the job, or `None` if none is expected or a number is out of its limits.
    pub fn job(&self) -> Option<Job<'static>> {
        match *self {
            WantedJob::Nothing => None,
            WantedJob::Create(ledger, interval, limit) => Some(Job::Create {
                ledger,
                settings: Settings::new(interval, limit)?,
            }),
            WantedJob::Serve(server) => Some(Job::Serve {
                ledger: server.ledger,
                bind: server.bind,
                options: server.options,
                until: server.until,
            }),
            WantedJob::Ask(call) => call.by_number(),
            WantedJob::AskByNotes(notes, call) => call.by_notes(notes),
            WantedJob::Notes(file, customer, first, last) => Some(Job::Notes {
                file,
                customer,
                first,
                last,
            }),
            WantedJob::Again(to, notes, tries) => Some(Job::Again {
                to,
                notes,
                tries: Tries::new(tries)?,
            }),
            WantedJob::Report(ledger, report, day) => Some(Job::Report {
                ledger,
                kind: report.kind(),
                day,
            }),
            WantedJob::SnapshotReport(ledger, report, day) => Some(Job::Snapshot {
                ledger,
                look: Look::Report {
                    kind: report.kind(),
                    day,
                },
            }),
            WantedJob::Audit(ledger) => Some(Job::Audit { ledger }),
            WantedJob::SnapshotAudit(ledger) => Some(Job::Snapshot {
                ledger,
                look: Look::Audit,
            }),
            WantedJob::Copy(ledger, to) => Some(Job::Copy { ledger, to }),
            WantedJob::Loop(day) => Some(Job::Loop { day }),
        }
    }
}

impl WantedCall {
    /// Returns the call with its number.
    fn by_number(&self) -> Option<Job<'static>> {
        Some(Job::Ask(Question {
            to: self.to,
            asker: Asker::Numbered {
                customer: self.customer,
                number: self.number,
            },
            body: self.body.words(),
            tries: Tries::new(self.tries)?,
        }))
    }

    /// Returns the call with the next number of notes.
    fn by_notes(&self, notes: &'static str) -> Option<Job<'static>> {
        Some(Job::Ask(Question {
            to: self.to,
            asker: Asker::Noted(notes),
            body: self.body.words(),
            tries: Tries::new(self.tries)?,
        }))
    }
}

impl WantedBody {
    /// Returns the body.
    fn words(&self) -> BodyWords<'static> {
        match *self {
            WantedBody::Grant(grant) => BodyWords::Grant {
                holder: grant.holder,
                service: grant.service,
                country: grant.country,
                first: serial(grant.first),
                last: serial(grant.last),
            },
            WantedBody::Draw(service, country) => BodyWords::Draw { service, country },
            WantedBody::DrawMany(service, country, count) => BodyWords::DrawMany {
                service,
                country,
                count: sheet(count),
            },
            WantedBody::Withdraw(range) => BodyWords::Withdraw { range },
            WantedBody::Void(id) => BodyWords::Void { id },
            WantedBody::Query(id) => BodyWords::Query { id },
        }
    }
}

impl WantedReport {
    /// Returns the kind.
    fn kind(&self) -> ReportKind {
        match *self {
            WantedReport::Ranges(filter, format) => ReportKind::Ranges {
                filter: RangeFilter {
                    customer: filter.customer,
                    range: filter.range,
                    id: None,
                },
                format,
            },
            WantedReport::Issues(filter, format) => ReportKind::Issues(IssuesReport {
                filter: IssueFilter {
                    customer: filter.customer,
                    range: filter.range,
                    id: None,
                    from_day: filter.from_day,
                    to_day: filter.to_day,
                },
                format,
            }),
            WantedReport::Info => ReportKind::Info,
        }
    }
}
