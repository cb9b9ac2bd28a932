//! Tests of ledgers in tables and of their rows, of jobs over ledgers, files and sockets of this
//! machine, and of the command line.
#![tactic(auto)]

#[cfg(test)]
mod host;
#[cfg(test)]
mod ledger;
