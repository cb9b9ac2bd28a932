//! Ends the turns of a server once a file is there.

ghost use Rattle.std.specs.Prelude.{◌≡◌, true, is_some};
ghost use Rattle.s10_host.specs.UntilFile.{EndsIfNamed};

use s10_jobs::Ending;
use std::fs;
use std::fs::Files;
use std::marker::Model;

/// A source of ends that looks whether a file is there. Without a path the turns never end early.
#[derive(Drop)]
pub(crate) struct UntilFile<'r, 'p, R: Files> {
    files: &'r R,
    path: Option<&'p str>,
}

impl<'r, 'p, R: Files> Model for UntilFile<'r, 'p, R> {
    ghost use Rattle.std.specs.Prelude.{Bool, is_some};

    // Whether a file is named.
    ghost Value = { Bool };

    ghost view = { λ ends. is_some ends.path };
}

impl<'r, 'p, R: Files> UntilFile<'r, 'p, R> {
    /// Returns the source that looks for the file at this path, or for none.
    pub(crate) fn new(files: &'r R, path: Option<&'p str>) -> UntilFile<'r, 'p, R>
        ensures { result ≡ is_some path.entry }
    {
        UntilFile { files, path }
    }
}

impl<'r, 'p, R: Files> Ending for UntilFile<'r, 'p, R> {
    ghost says = { EndsIfNamed };

    fn is_due(&mut self) -> bool
        ensures { EndsIfNamed self.old result self.new }
    {
        is_there(self.files, self.path)
    }
}

/// Returns whether a file is named and the system says that it is there.
pub(crate) fn is_there<R: Files>(files: &R, path: Option<&str>) -> bool
    ensures { result ≡ true → is_some path.entry ≡ true }
{
    match path {
        Some(path) => matches!(fs::exists(files, path), Ok(true)),
        None => false,
    }
}
