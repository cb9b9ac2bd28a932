//! What a request of a table asks.

use crate::samples::{gb, id, id_of_us, ra, rb, serial, sheet};
use s10_core::Service;
use s10_wire::Body;

/// What a request asks, of RA GB unless the name of the variant says otherwise.
#[derive(Clone, Copy)]
pub enum Asked {
    /// The holder, the first and the last serial.
    Grant(u32, u32, u32),
    /// The holder, the first and the last serial.
    GrantOfRb(u32, u32, u32),
    Draw,
    DrawOfRb,
    /// The number of identifiers, 1 to 16.
    DrawMany(u8),
    /// The serial.
    Void(u32),
    /// The serial.
    Query(u32),
    /// The serial.
    QueryOfUs(u32),
    /// The number of the range.
    Withdraw(u32),
}

fn grant(service: Service, holder: u32, first: u32, last: u32) -> Body {
    Body::Grant {
        holder,
        service,
        country: gb(),
        first: serial(first),
        last: serial(last),
    }
}

fn draw(service: Service) -> Body {
    Body::Draw {
        service,
        country: gb(),
    }
}

impl Asked {
    /// Returns the body of the request.
    pub fn body(self) -> Body {
        match self {
            Asked::Grant(holder, first, last) => grant(ra(), holder, first, last),
            Asked::GrantOfRb(holder, first, last) => grant(rb(), holder, first, last),
            Asked::Draw => draw(ra()),
            Asked::DrawOfRb => draw(rb()),
            Asked::DrawMany(count) => Body::DrawMany {
                service: ra(),
                country: gb(),
                count: sheet(count),
            },
            Asked::Void(value) => Body::Void { id: id(value) },
            Asked::Query(value) => Body::Query { id: id(value) },
            Asked::QueryOfUs(value) => Body::Query {
                id: id_of_us(value),
            },
            Asked::Withdraw(range) => Body::Withdraw { range },
        }
    }
}
