use s10_book::BookFault;
use s10_lines::WriteFault;
use thiserror::Error;

/// Why a report was not written to its end.
#[derive(Clone, Copy, Debug, PartialEq, Eq, Error)]
pub enum ReportFault {
    /// A call of the book failed. The lines before are written whole, and nothing of the next one.
    #[error("book: {0}")]
    Book(BookFault),
    /// The writer failed. Part of a line may be written.
    #[error("the report could not be written")]
    Write,
}

impl From<BookFault> for ReportFault {
    ghost use Rattle.std.specs.Prelude.{◌≡◌};
    ghost use Rattle.s10_reports.specs.declared.report_fault.ReportFault.TheVariants.{Book};

    ghost from_gives = { λ fault report. report ≡ Book fault };

    fn from(fault: BookFault) -> ReportFault {
        ReportFault::Book(fault)
    }
}

impl From<WriteFault> for ReportFault {
    ghost use Rattle.std.specs.Prelude.{◌≡◌};
    ghost use Rattle.s10_reports.specs.declared.report_fault.ReportFault.TheVariants.{Write};

    ghost from_gives = { λ fault report. report ≡ Write };

    fn from(_fault: WriteFault) -> ReportFault {
        ReportFault::Write
    }
}
