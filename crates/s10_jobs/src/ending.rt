//! Says when the turns of a server end before their count.

ghost use Rattle.std.specs.Prelude.{◌≡◌, Bool, false};

/// A source that says whether the turns of a server end, such as a file that is looked for.
pub trait Ending {
    /// Whether the source, asked once, gave this answer.
    ghost says: { Self → Bool → Self → Type 0 };

    /// Returns whether the turns end now.
    fn is_due(&mut self) -> bool
        ensures { says self.old result self.new };
}

/// The end of turns that serve their whole count.
#[derive(Clone, Copy, Debug, Drop)]
pub struct AtCount;

impl Ending for AtCount {
    ghost says = { λ old answer new. answer ≡ false };

    fn is_due(&mut self) -> bool
        ensures { result ≡ false }
    {
        false
    }
}
