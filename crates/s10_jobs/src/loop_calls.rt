//! Makes the calls of `loop`.

ghost use Rattle.std.specs.Prelude.{◌≡◌, ◌∷◌, [], IfOk};
ghost use Rattle.s10_wire.specs.declared.body.Body.TheVariants.{Draw};
ghost use Rattle.s10_link.specs.Link.{LeadsTo};
ghost use Rattle.s10_jobs.specs.Shown.{Prints};
ghost use Rattle.s10_jobs.specs.LoopCalls.{ra, gb, first_of_range, granted_range};
ghost use Rattle.s10_jobs.specs.LoopCalls.{customer_calls, calls_of, loop_calls, AreMadeInTurn};

use crate::asking::ask;
use crate::job_status::JobStatus;
use s10_core::{Country, Id, Serial, Service};
use s10_ends::Client;
use s10_lines::WriteFault;
use s10_link::{Link, Peer};
use s10_wire::Body;
use std::io::Write;

/// The maximum number of tries of a call.
const TRIES: u32 = 5;

/// Makes up to five calls, writes the line of each, and returns the status of the last one.
///
/// The post grants RA GB 0 to 2 to customer 7, who draws twice, voids the first identifier and
/// queries it. The first call that is not done is the last.
///
/// # Errors
///
/// `WriteFault` if the writer fails; part of a line may be written.
pub fn make_calls<L: Link, W: Write>(
    link: &mut L,
    to: Peer,
    out: &mut W,
) -> Result<JobStatus, WriteFault>
    ensures asked { IfOk result (λ status. Prints (W.contents out.old) (W.contents out.new)
        (AreMadeInTurn to loop_calls (L.trace_of link.old) (L.trace_of link.new) status)) }
    ensures led { LeadsTo L.step link.old link.new }
{
    let Ok(mut post) = Client::new(0, 1, 1) else {
        unreachable!()
    };
    let Ok(mut customer) = Client::new(7, 1, 4) else {
        unreachable!()
    };
    let granted = ask_all(&mut post, link, to, &[first_range()], out)?;
    if granted != JobStatus::Done {
        return Ok(granted);
    }
    ask_all(&mut customer, link, to, &customer_bodies(), out)
}

// Makes calls of one client in order, up to the first that is not done.
fn ask_all<L: Link, W: Write>(
    client: &mut Client,
    link: &mut L,
    to: Peer,
    bodies: &[Body],
    out: &mut W,
) -> Result<JobStatus, WriteFault>
    ensures asked { IfOk result (λ status. Prints (W.contents out.old) (W.contents out.new)
        (AreMadeInTurn to (calls_of client.old bodies.now) (L.trace_of link.old)
        (L.trace_of link.new) status)) }
    ensures led { LeadsTo L.step link.old link.new }
{
    for body in bodies {
        let status = ask(client, link, to, *body, TRIES, out)?;
        if status != JobStatus::Done {
            return Ok(status);
        }
    }
    Ok(JobStatus::Done)
}

// The grant of RA GB 0 to 2 to customer 7.
fn first_range() -> Body
    ensures { result ≡ granted_range }
{
    Body::Grant {
        holder: 7,
        service: ra(),
        country: gb(),
        first: Serial::new(0).unwrap(),
        last: Serial::new(2).unwrap(),
    }
}

// Two draws from the range, then the void and the query of the first identifier.
fn customer_bodies() -> [Body; 4]
    ensures { result ≡ customer_calls }
{
    let void = Body::Void { id: first_id() };
    let query = Body::Query { id: first_id() };
    [draw(), draw(), void, query]
}

fn draw() -> Body
    ensures { result ≡ Draw ra gb }
{
    Body::Draw {
        service: ra(),
        country: gb(),
    }
}

fn ra() -> Service
    ensures { result ≡ ra }
{
    Service::new(*b"RA").unwrap()
}

fn gb() -> Country
    ensures { result ≡ gb }
{
    Country::new(*b"GB").unwrap()
}

// The identifier with the first serial of the range.
fn first_id() -> Id
    ensures { result ≡ first_of_range }
{
    Id {
        service: ra(),
        serial: Serial::new(0).unwrap(),
        country: gb(),
    }
}
