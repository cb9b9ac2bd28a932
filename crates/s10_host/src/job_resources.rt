//! What a job returns besides its result.

ghost use Rattle.std.specs.Prelude.{◌≡◌};
ghost use Rattle.s10_host.specs.JobResources.{no_resources};

use crate::copy_resources::CopyResources;
use crate::loop_resources::LoopResources;
use crate::snapshot_resources::SnapshotResources;
use s10_link::UdpLink;
use s10_notes::{HostFolder, NotesFile};

/// The resources of a job. `F` represents the files of a ledger, closed.
#[derive(Drop)]
pub struct JobResources<'a, F> {
    /// The files of the ledger.
    pub files: Option<F>,
    /// The link that the ledger was served over, or that a request was sent over.
    pub link: Option<UdpLink>,
    /// The notes that were created, or that a request was asked by.
    pub notes: Option<NotesFile<HostFolder<'a>>>,
    /// The resources of a loop.
    pub looped: Option<LoopResources>,
    /// The resources of a look at a snapshot.
    pub snapshot: Option<SnapshotResources<'a>>,
    /// The resources of a copy.
    pub copied: Option<CopyResources<'a>>,
}

impl<'a, F> JobResources<'a, F> {
    /// Returns no resources.
    pub(crate) fn none() -> JobResources<'a, F>
        ensures { result ≡ no_resources }
    {
        JobResources {
            files: None,
            link: None,
            notes: None,
            looped: None,
            snapshot: None,
            copied: None,
        }
    }
}
