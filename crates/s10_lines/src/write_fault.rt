use thiserror::Error;

/// The writer failed: some bytes of the line may be written.
#[derive(Clone, Copy, Debug, PartialEq, Eq, Error)]
#[error("the line could not be written")]
pub struct WriteFault;
