use crate::part::Part;

/// A call on the two new files of a copy, or on the folder that they are in.
#[derive(Drop)]
pub enum CopyCall {
    /// A new file was created, beside the name that it gets later.
    Create(Part),
    /// The bytes were appended to it.
    Write(Part, Vec<u8>),
    /// What it holds was made to survive a stop of the machine.
    Sync(Part),
    /// It got its name, in place of the one beside.
    Name(Part),
    /// The names in the folder were made to survive a stop of the machine.
    SyncFolder,
    /// It was removed.
    Remove(Part),
}
