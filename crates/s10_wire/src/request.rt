use crate::body::Body;

/// A numbered request of a customer.
///
/// Customer and number together are the key of the call, by which a repeat is recognised (Birrell
/// and Nelson 1984).
#[derive(Clone, Copy, Debug, PartialEq, Eq)]
pub struct Request {
    /// The customer who asks; 0 is the post.
    pub customer: u32,
    /// The customer's own number for the request.
    pub number: u32,
    /// What is asked.
    pub body: Body,
}
