//! Asks a question over a socket of its own.

ghost use Rattle.std.specs.Prelude.{◌≡◌, None};
ghost use Rattle.s10_host.specs.Asking.{HasAsked, HasAskedByNumber};

use crate::job_end::JobEnd;
use crate::job_resources::JobResources;
use crate::notes::run_by_notes;
use s10_jobs::{
    Asker, Question, ask_by_number, bind_client, eprint_failure, fail_by_link, write_refusal,
};
use s10_wire::Request;
use std::io::Write;

/// Asks a question with its number, or with the next one of its notes.
pub(crate) fn run_question<'a, F, W: Write>(
    rt: &'a HostRuntime,
    question: &Question<'a>,
    out: &mut W,
) -> JobEnd<'a, F>
    ensures { HasAsked question.now.asker question.now (W.contents out.old) (W.contents out.new)
        result.done result.resources.link result.resources.notes }
{
    match question.asker {
        Asker::Numbered { customer, number } => run_by_number(rt, question, customer, number, out),
        Asker::Noted(file) => run_by_notes(rt, question, file, out),
    }
}

// Asks a question with its number. A text that cannot be read is refused before a socket is bound.
fn run_by_number<'a, F, W: Write>(
    rt: &HostRuntime,
    question: &Question<'_>,
    customer: u32,
    number: u32,
    out: &mut W,
) -> JobEnd<'a, F>
    ensures asked { HasAskedByNumber customer number question.now (W.contents out.old)
        (W.contents out.new) result.done result.resources.link }
    ensures without_notes { result.resources.notes ≡ None }
{
    let (to, body) = match question.read() {
        Ok(read) => read,
        Err(refusal) => {
            return JobEnd {
                done: write_refusal(refusal, out),
                resources: JobResources::none(),
            };
        }
    };
    let mut link = match bind_client(rt) {
        Ok(link) => link,
        Err(fault) => {
            return JobEnd {
                done: fail_by_link(fault, out),
                resources: JobResources::none(),
            };
        }
    };
    let request = Request {
        customer,
        number,
        body,
    };
    let asked = ask_by_number(&request, &mut link, to, question.tries, out);
    eprint_failure(rt, to, &link);
    JobEnd {
        done: asked,
        resources: JobResources {
            link: Some(link),
            ..JobResources::none()
        },
    }
}
