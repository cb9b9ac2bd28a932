//! A request as a C struct.
ghost use Rattle.std.specs.Prelude.{◌≡◌};
ghost use Rattle.s10_plain.specs.Requests.{plain_of_kind, plain_request_of};

use crate::plain_id::closed_text;
use s10_wire::{Body, Request};

/// A request of any kind. The fields that its kind lacks are zero after decoding and are ignored
/// when encoding.
#[repr(C)]
#[derive(Clone, Copy, Debug, PartialEq, Eq)]
pub struct PlainRequest {
    /// The customer who asks; 0 is the post.
    pub customer: u32,
    /// The request number of the customer.
    pub number: u32,
    /// The holder of a grant.
    pub holder: u32,
    /// The first serial of a grant, 0 to 99,999,999.
    pub first: u32,
    /// The last serial of a grant, 0 to 99,999,999.
    pub last: u32,
    /// The range number of a withdraw.
    pub range: u32,
    /// 1 grant, 2 draw, 3 void, 4 query, 5 draw-many, 6 withdraw.
    pub kind: u8,
    /// The count of a draw-many, 1 to 16.
    pub count: u8,
    /// The service of a grant, draw or draw-many, in capital letters.
    pub service: [u8; 2],
    /// The country of a grant, draw or draw-many, in capital letters.
    pub country: [u8; 2],
    /// The identifier of a void or query, and a closing zero, which encoding ignores.
    pub text: [u8; 14],
}

/// Returns the C struct of a request.
pub fn plain(request: &Request) -> PlainRequest
    ensures { result ≡ plain_request_of request.now }
{
    match request.body {
        Body::Grant {
            holder,
            service,
            country,
            first,
            last,
        } => PlainRequest {
            holder,
            service: service.bytes(),
            country: country.bytes(),
            first: first.value(),
            last: last.value(),
            ..of_kind(request, 1)
        },
        Body::Draw { service, country } => PlainRequest {
            service: service.bytes(),
            country: country.bytes(),
            ..of_kind(request, 2)
        },
        Body::Void { id } => PlainRequest {
            text: closed_text(&id),
            ..of_kind(request, 3)
        },
        Body::Query { id } => PlainRequest {
            text: closed_text(&id),
            ..of_kind(request, 4)
        },
        Body::DrawMany {
            service,
            country,
            count,
        } => PlainRequest {
            service: service.bytes(),
            country: country.bytes(),
            count: count.value(),
            ..of_kind(request, 5)
        },
        Body::Withdraw { range } => PlainRequest {
            range,
            ..of_kind(request, 6)
        },
    }
}

// Returns the struct with the customer, the number and this kind, and no body.
fn of_kind(request: &Request, kind: u8) -> PlainRequest
    ensures { result ≡ plain_of_kind request.now.customer request.now.number kind }
{
    PlainRequest {
        customer: request.customer,
        number: request.number,
        holder: 0,
        first: 0,
        last: 0,
        range: 0,
        kind,
        count: 0,
        service: [0; 2],
        country: [0; 2],
        text: [0; 14],
    }
}
