ghost use Rattle.std.specs.Prelude.{◌≡◌, IsTrue};
ghost use Rattle.s10_wire.specs.Kind.{fits as fits_body};

use crate::body::Body;
use crate::outcome::Outcome;
use crate::request::Request;

/// A request with an outcome that fits its body. docs/DATAGRAMS.md lists the outcomes that fit each
/// kind.
#[derive(Clone, Copy, Debug, PartialEq, Eq)]
pub struct Reply {
    request: Request,
    outcome: Outcome,
    ghost fitting: { IsTrue (fits_body request.body outcome) },
}

impl Reply {
    ghost use Rattle.std.specs.Prelude.{◌≡◌, ◌↔◌, IsTrue, IsSome, IfSome};
    ghost use Rattle.s10_wire.specs.Kind.{fits as fits_body};
    ghost use Rattle.s10_wire.specs.Reply.{request_of, outcome_of};

    /// Returns the reply, or `None` if the outcome does not fit the body of the request.
    pub fn new(request: Request, outcome: Outcome) -> Option<Reply>
        ensures fits { IsSome result ↔ IsTrue (fits_body request.body outcome) }
        ensures parts { IfSome result (λ reply. (request_of reply ≡ request)
            × (outcome_of reply ≡ outcome)) }
    {
        if fits(&request.body, &outcome) {
            Some(Reply { request, outcome })
        } else {
            None
        }
    }

    // Returns the reply with an outcome that is known to fit.
    pub(crate) fn of(request: Request, outcome: Outcome) -> Reply
        requires { IsTrue (fits_body request.body outcome) }
        ensures { (request_of result ≡ request) × (outcome_of result ≡ outcome) }
    {
        Reply { request, outcome }
    }

    /// Returns the request that is replied to.
    pub fn request(&self) -> Request
        ensures { result ≡ request_of self.now }
    {
        self.request
    }

    /// Returns the outcome of the request.
    pub fn outcome(&self) -> Outcome
        ensures outcome { result ≡ outcome_of self.now }
        ensures fits { IsTrue (fits_body (request_of self.now).body result) }
    {
        self.outcome
    }
}

fn fits(body: &Body, outcome: &Outcome) -> bool
    ensures { result ≡ fits_body body.now outcome.now }
{
    match (body, outcome) {
        (_, Outcome::NumberReused) => true,
        (
            Body::Grant { .. },
            Outcome::Granted { .. } | Outcome::NotThePost | Outcome::BadGrant | Outcome::Overlap,
        ) => true,
        (Body::Draw { .. }, Outcome::Drawn { .. } | Outcome::NoRange | Outcome::NoneFree) => true,
        (
            Body::Void { .. },
            Outcome::Voided | Outcome::NotYours | Outcome::NotIssued | Outcome::AlreadyVoid,
        ) => true,
        (Body::Query { .. }, Outcome::Told(_) | Outcome::NotYours) => true,
        (Body::DrawMany { count, .. }, Outcome::DrawnMany { ids, .. }) => {
            ids.len() == count.value() as usize
        }
        (Body::DrawMany { .. }, Outcome::NoRange | Outcome::NoneFree) => true,
        (
            Body::Withdraw { .. },
            Outcome::Withdrawn | Outcome::NotThePost | Outcome::NoSuchRange | Outcome::Closed,
        ) => true,
        _ => false,
    }
}
