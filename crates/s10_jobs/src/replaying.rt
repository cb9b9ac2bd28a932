//! Replays datagrams: reads them from the lines of an input, and writes the answers as lines.
ghost use Rattle.std.specs.Prelude.{[], ℕ, List, Option, Result, IfSome};
ghost use Rattle.s10_history.specs.declared.entry.Entry.{Entry};
ghost use Rattle.s10_ends.specs.Server.{book_of};
ghost use Rattle.s10_jobs.specs.Replay.{Replayed, ReportsReplay};
ghost use Rattle.s10_jobs.specs.declared.input_fault.InputFault.{InputFault};

use crate::answer_line::write_answer;
use crate::delivery_line::{read_delivery, without_return};
use crate::input_fault::{InputFault, write_input_fault};
use crate::job_status::JobStatus;
use crate::line_reader::{MAX_LINE, MAX_LINES, NextLine, next_byte, read_line};
use s10_book::Book;
use s10_ends::Server;
use s10_history::Settings;
use s10_index::{HashSeed, IndexedBook};
use s10_lines::WriteFault;
use std::alloc::Global;
use std::io::{Read, Write};

/// Passes the datagrams of an input to a server, writes a line for each answer, and returns the
/// number of answers.
///
/// An input line is DAY, one space, HEX. DAY has one to ten digits, and is at most 4294967295. HEX
/// is an even number of hexadecimal digits, 0 to 1024. A carriage return at the end of a line is
/// ignored, and so is an empty line. An input has at most [`MAX_LINES`] lines of at most [`MAX_LINE`]
/// bytes, so a replay ends on any reader. An interrupted read is tried again.
///
/// # Errors
///
/// - `Line` with its number, from 1, if a line is not of this form, is too long or is past the last
///   one allowed. At most one byte past either limit is read.
/// - `Read` if the input cannot be read further.
/// - `Write` if the output cannot be written.
pub fn replay_on<B: Book, R: Read, W: Write>(
    server: &mut Server<B>,
    input: &mut R,
    output: &mut W,
) -> Result<u32, InputFault>
    ensures was_honest { B.honest (book_of server.new) → B.honest (book_of server.old) }
    ensures replayed { B.honest (book_of server.new)
        → IfSome (R.remaining input.old) (λ bytes. IfSome (W.contents output.old) (λ held.
        Replayed (B.history (book_of server.old)) (B.terms (book_of server.old)) bytes
        (R.remaining input.new) held (W.contents output.new) result
        (B.history (book_of server.new)))) }
{
    let mut buffer = [0u8; MAX_LINE];
    let mut count = 0;
    for done in 0..MAX_LINES {
        let Ok(next) = read_line(input, &mut buffer) else {
            return Err(InputFault::Read);
        };
        let len = match next {
            NextLine::End => return Ok(count),
            NextLine::Long => return Err(InputFault::Line(done + 1)),
            NextLine::Whole(len) => len,
        };
        let line = &buffer[..len];
        match read_delivery(line) {
            Some(delivery) => {
                let answer = server.handle(delivery.packet.bytes(), delivery.day);
                let Ok(()) = write_answer(&answer, output) else {
                    return Err(InputFault::Write);
                };
                count += 1;
            }
            None if without_return(line).is_empty() => {}
            None => return Err(InputFault::Line(done + 1)),
        }
    }
    match next_byte(input) {
        Ok(None) => Ok(count),
        Ok(Some(_byte)) => Err(InputFault::Line(MAX_LINES + 1)),
        Err(_) => Err(InputFault::Read),
    }
}

// Passes the datagrams of an input to a server that ends with them.
fn replay_to_end<B: Book + Drop, R: Read, W: Write>(
    mut server: Server<B>,
    input: &mut R,
    output: &mut W,
) -> Result<u32, InputFault>
    ensures { ((book : B) → B.honest book) → IfSome (R.remaining input.old) (λ bytes.
        IfSome (W.contents output.old) (λ held. (after : List Entry)
        × Replayed (B.history (book_of server)) (B.terms (book_of server)) bytes
        (R.remaining input.new) held (W.contents output.new) result after)) }
{
    replay_on(&mut server, input, output)
}

/// Passes the datagrams of an input to the server of an empty ledger in memory, as `replay_on`
/// does.
///
/// Returns the number of answers.
///
/// # Errors
///
/// Those of `replay_on`.
pub fn replay<R: Read, W: Write>(
    alloc: Global,
    settings: Settings,
    input: &mut R,
    output: &mut W,
) -> Result<u32, InputFault>
    ensures { IfSome (R.remaining input.old) (λ bytes. IfSome (W.contents output.old) (λ held.
        (after : List Entry) × Replayed [] settings bytes (R.remaining input.new) held
        (W.contents output.new) result after)) }
{
    let book = IndexedBook::new(alloc, HashSeed::fixed(), settings);
    replay_to_end(Server::new(book), input, output)
}

/// Runs a replay over an empty ledger. If it ends early, the last line says why.
///
/// Returns `Done`, `Refused` if a line was refused, or `Failed` if the input or the output failed.
///
/// # Errors
///
/// `WriteFault` if the last line cannot be written.
pub fn run_replay<R: Read, W: Write>(
    alloc: Global,
    settings: Settings,
    input: &mut R,
    output: &mut W,
) -> Result<JobStatus, WriteFault>
    ensures { IfSome (R.remaining input.old) (λ bytes. IfSome (W.contents output.old) (λ held.
        (after : List Entry) × (replayed : Result ℕ InputFault) × (between : Option (List ℕ))
        × Replayed [] settings bytes (R.remaining input.new) held between replayed after
        × ReportsReplay replayed between (W.contents output.new) result)) }
{
    match replay(alloc, settings, input, output) {
        Ok(_) => Ok(JobStatus::Done),
        Err(fault) => write_input_fault(fault, output),
    }
}
