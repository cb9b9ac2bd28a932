/// What gives a request its number.
#[derive(Clone, Copy, Debug, PartialEq, Eq)]
pub enum Asker<'a> {
    /// The customer and the number of the command line.
    Numbered {
        /// The customer; 0 is the post.
        customer: u32,
        /// The number of the request.
        number: u32,
    },
    /// The notes at this path, which name the customer.
    Noted(&'a str),
}
