use crate::field_fault::FieldFault;

/// The reason why a request was not submitted: the first variant that applies.
#[derive(Clone, Copy, Debug, PartialEq, Eq)]
pub enum SubmitFault {
    /// A request is pending.
    Busy,
    /// The last number is taken.
    NumbersSpent,
    /// A field of the request is wrong.
    Field(FieldFault),
}
