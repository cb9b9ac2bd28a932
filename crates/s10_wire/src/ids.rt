ghost use Rattle.std.specs.Prelude.{◌≡◌, SomeIff, length, slice_get};
ghost use Rattle.s10_wire.specs.Ids.{IsCount};

use s10_core::Id;
use std::marker::Model;

// The greatest number of identifiers in a sheet.
const MOST: usize = 16;

/// The identifiers of a sheet, in order: 1 to 16 of them.
///
/// Two lists are equal if they have the same identifiers in the same order.
#[derive(Clone, Copy, Debug, PartialEq, Eq)]
pub struct Ids {
    // The identifiers, then copies of the first one, so that equal lists are equal in every field.
    room: [Id; MOST],
    // The number of identifiers, 1 to 16.
    len: usize,
}

impl Model for Ids {
    ghost use Rattle.std.specs.Prelude.{List, take, length};
    ghost use Rattle.std.proofs.Common.{sym};
    ghost use Rattle.s10_core.specs.declared.id.Id.{Id};
    ghost use Rattle.s10_wire.specs.Ids.{ArePaddedWithFirst, padded_with_first};

    ghost Value = { List Id };

    ghost view = { λ ids. take ids.len ids.room };

    ghost invariant = { λ ids. ArePaddedWithFirst ids.room ids.len };

    ghost inverse = { λ list. record { room = padded_with_first list; len = length list } };

    ghost inverse_ok = { λ ids known i. record { room = sym known.rest i; len = known.long i } };
}

impl Ids {
    /// Returns the list of these identifiers, or `None` if there are none or more than 16.
    pub fn new(ids: &[Id]) -> Option<Ids>
        ensures { SomeIff result (IsCount (length ids.now)) ids.now }
    {
        let len = ids.len();
        if len < 1 || MOST < len {
            return None;
        }
        let mut room = [ids[0]; MOST];
        room[..len].copy_from_slice(ids);
        Some(Ids { room, len })
    }

    /// Returns the number of identifiers, 1 to 16.
    pub fn len(&self) -> usize
        ensures len { result ≡ length self.now }
        ensures in_range { IsCount result }
    {
        self.len
    }

    /// Returns the identifier at an index from 0, or `None` if the list is shorter.
    pub fn get(&self, at: usize) -> Option<Id>
        ensures { result ≡ slice_get self.now at }
    {
        self.as_slice().get(at).copied()
    }

    /// Returns the identifiers, in order.
    pub fn as_slice(&self) -> &[Id]
        ensures ids { result.now ≡ self.now }
        ensures in_range { IsCount (length self.now) }
    {
        &self.room[..self.len]
    }
}
