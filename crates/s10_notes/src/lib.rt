//! Notes of a client: its customer, its numbers and its open request, in a file that other clients
//! read too.
#![tactic(auto)]

mod check;
mod folder;
mod folder_call;
mod folder_refusal;
mod host_folder;
mod laws;
mod names;
mod notebook;
mod notes;
mod notes_fault;
mod notes_file;
mod reading;
mod take_fault;
mod writing;

pub use check::check_value;
pub use folder::Folder;
pub use folder_call::{FolderCall, Text};
pub use folder_refusal::FolderRefusal;
pub use host_folder::HostFolder;
pub use laws::{numbers_are_used_once, one_changed_byte_is_seen};
pub use names::Names;
pub use notebook::Notebook;
pub use notes::Notes;
pub use notes_fault::NotesFault;
pub use notes_file::NotesFile;
pub use reading::read_notes;
pub use take_fault::TakeFault;
pub use writing::write_notes;
