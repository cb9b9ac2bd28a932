use crate::count::Count;
use s10_core::{Country, Id, Serial, Service};

/// What a request asks, by kind.
///
/// The kinds are this project's own choice, see docs/DATAGRAMS.md.
#[derive(Clone, Copy, Debug, PartialEq, Eq)]
pub enum Body {
    /// The post grants a range of serial numbers, both ends included, to a holder.
    Grant {
        /// The customer who may draw from the range; 0, the post, can hold none.
        holder: u32,
        /// Service of the range.
        service: Service,
        /// Country of the range.
        country: Country,
        /// First serial number of the range.
        first: Serial,
        /// Last serial number of the range.
        last: Serial,
    },
    /// A customer asks for one identifier of this service and country.
    Draw {
        /// Service of the identifier.
        service: Service,
        /// Country of the identifier.
        country: Country,
    },
    /// A customer gives up an identifier that was not used.
    Void {
        /// The identifier to void.
        id: Id,
    },
    /// A customer, or the post, asks for the state of an identifier.
    Query {
        /// The identifier to look up.
        id: Id,
    },
    /// A customer asks for a sheet of identifiers of this service and country: all of them or none.
    DrawMany {
        /// Service of the identifiers.
        service: Service,
        /// Country of the identifiers.
        country: Country,
        /// Number of identifiers, 1 to 16.
        count: Count,
    },
    /// The post closes a range: no identifier of it is issued any more.
    Withdraw {
        /// Number of the range, from the reply to its Grant.
        range: u32,
    },
}
