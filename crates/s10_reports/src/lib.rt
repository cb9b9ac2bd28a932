//! Part of `s10_book`, split off for the prover alone: the reports of a ledger, over any book.
#![tactic(auto)]

mod info_report;
mod issue_filter;
mod issues_report;
mod range_filter;
mod ranges_report;
mod records;
mod report_fault;
mod report_format;
mod states;

pub use info_report::write_info;
pub use issue_filter::IssueFilter;
pub use issues_report::{IssuesReport, write_issues};
pub use range_filter::RangeFilter;
pub use ranges_report::write_ranges;
pub use report_fault::ReportFault;
pub use report_format::ReportFormat;
