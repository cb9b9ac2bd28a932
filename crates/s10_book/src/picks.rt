use s10_core::Id;
use s10_wire::Ids;
use std::marker::Model;

/// The identifiers that were picked so far, at most sixteen.
#[derive(Drop)]
pub(crate) struct Picks {
    room: [Id; 16],
    len: usize,
}

impl Model for Picks {
    ghost use Rattle.std.specs.Prelude.{◌≡◌, ◌≤◌, List, length, take};
    ghost use Rattle.s10_core.specs.declared.id.Id.{Id};

    ghost Value = { List Id };

    ghost view = { λ picks. take picks.len picks.room };

    ghost invariant = { λ picks. (picks.len ≤ 16) × (length picks.room ≡ 16) };
}

impl Picks {
    ghost use Rattle.std.specs.Prelude.{◌≡◌, ◌<◌, ◌≤◌, ◌++◌, ◌∷◌, [], length};

    /// Returns an empty list. `any` only fills the unused array.
    pub(crate) fn new(any: Id) -> Picks
        ensures { result ≡ [] }
    {
        Picks {
            room: [any; 16],
            len: 0,
        }
    }

    /// Returns the number of identifiers.
    pub(crate) fn len(&self) -> usize
        ensures { result ≡ length self.now }
    {
        self.len
    }

    /// Appends an identifier; there must be fewer than sixteen.
    pub(crate) fn push(&mut self, id: Id)
        requires { length self.old < 16 }
        ensures { self.new ≡ self.old ++ id ∷ [] }
    {
        self.room[self.len] = id;
        self.len += 1;
    }

    /// Returns the identifiers as a sheet; there must be at least one.
    pub(crate) fn ids(&self) -> Ids
        requires { 1 ≤ length self.now }
        ensures { result ≡ self.now }
    {
        Ids::new(&self.room[..self.len]).unwrap()
    }
}
