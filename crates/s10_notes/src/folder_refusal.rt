use crate::notes_fault::NotesFault;

/// A folder whose notes could not be opened or created, and the reason why.
#[derive(Drop)]
pub struct FolderRefusal<F> {
    /// The folder, with the calls that were made.
    pub folder: F,
    /// The reason.
    pub fault: NotesFault,
}
