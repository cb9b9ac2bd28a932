//! Explains the failure of a link on standard error.

use s10_link::{Peer, UdpLink};

/// Prints the system's error of the link's last call that failed, if one has failed.
///
/// The result is ignored, so the line of the failure is printed if standard error is closed.
pub fn eprint_failure<R: Eprint>(rt: &R, to: Peer, link: &UdpLink) {
    if let Some(cause) = link.last_failure() {
        let _ = eprintln!(rt; "cannot ask {to}: {cause}");
    }
}
