//! Tests of the server, the client and the links between them, of both ends in one world, and of
//! jobs.
#![tactic(auto)]

#[cfg(test)]
mod ends;
#[cfg(test)]
mod jobs;
#[cfg(test)]
mod links;
