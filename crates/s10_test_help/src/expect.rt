//! Comparisons to assert, which print the case that fails.

use std::fmt::Debug;

/// Returns the condition, and prints the case if it is false.
pub fn holds<C: Debug>(rt: &impl Eprint, case: &C, is_so: bool) -> bool {
    if !is_so {
        let _ = eprintln!(rt; "case {case:?}");
    }
    is_so
}

/// Returns whether the found value equals the wanted one. Prints the case and both if it does not.
pub fn same<C: Debug, T: PartialEq + Debug>(
    rt: &impl Eprint,
    case: &C,
    found: &T,
    wanted: &T,
) -> bool {
    let is_same = found == wanted;
    if !is_same {
        let _ = eprintln!(rt; "case {case:?}: found {found:?}, wanted {wanted:?}");
    }
    is_same
}

/// Returns whether the bytes written are this text.
pub fn is_text(written: Vec<u8>, text: &[u8]) -> bool {
    written.as_slice() == text
}
