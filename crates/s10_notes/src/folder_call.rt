//! The calls by which the notes in a folder are read and replaced.

use crate::names::Names;
use arrayvec::ArrayVec;

/// The text of notes. No notes are longer: each of three numbers has at most ten digits, and a
/// datagram 28 bytes.
pub type Text = ArrayVec<u8, 160>;

/// A call of the system on the notes' file, on the file beside it, or on their folder.
#[derive(Drop)]
pub enum FolderCall {
    /// Counts the names of the notes' file.
    Names(Names),
    /// Creates the file beside, or empties it.
    Empty,
    /// Appends the text to the file beside.
    Append(Text),
    /// Makes what the file beside holds survive a stop of the machine.
    Sync,
    /// Puts the file beside in the place of the notes' file.
    Rename,
    /// Makes the names in the folder survive a stop of the machine.
    SyncFolder,
    /// Makes what the notes' file holds survive a stop of the machine, and reads it: the text is all
    /// that it holds. There is none if it holds more than any text has, or if the call failed.
    Read(Option<Text>),
}
