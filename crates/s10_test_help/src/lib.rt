//! What the crates of tests share: assertions, command lines, writers that fail, and calls with
//! their answers.
#![tactic(auto)]

pub mod answered;
pub mod asked;
pub mod datagrams;
pub mod deliveries;
pub mod expect;
pub mod hiccup;
pub mod refusing;
pub mod samples;
pub mod steps;
pub mod story;
pub mod words;
pub mod worked;
