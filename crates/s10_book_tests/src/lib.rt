//! Tests of identifiers, datagrams, lines and links, and of books, rules, ranges and reports.
#![tactic(auto)]

#[cfg(test)]
mod book;
#[cfg(test)]
mod wire;
