use thiserror::Error;

/// The reason why a file of notes could not be created, opened or replaced.
#[derive(Clone, Copy, Debug, PartialEq, Eq, Error)]
pub enum NotesFault {
    /// A file is at the path of new notes.
    #[error("taken")]
    Taken,
    /// No file is at the path.
    #[error("missing")]
    Missing,
    /// The file has another name too: a hard link.
    #[error("linked")]
    Linked,
    /// Another client has the notes open.
    #[error("locked")]
    Locked,
    /// The file has no notes in it.
    #[error("damaged")]
    Damaged,
    /// A call of the system failed, or memory is lacking.
    #[error("store")]
    Store,
}
