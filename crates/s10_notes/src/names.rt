/// How many names the file of notes has: directory entries, also in other folders.
#[derive(Clone, Copy, Debug, PartialEq, Eq)]
pub enum Names {
    /// No file is at the path.
    Zero,
    /// The one at the path.
    One,
    /// Others too: hard links. A rename replaces one of them alone.
    More,
}
