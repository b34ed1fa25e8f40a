//! The positions of all blocks.

ghost use Rattle.std.specs.Prelude.{◌≡◌, ◌<◌, ◌≤◌, get_or, slice_set, replicate, IsSome, Some, None};
ghost use Rattle.mmem_core.specs.Code.StoredPlaces.{place_stored};

use crate::place::Place;
use mote_types::block_name::NAMES;
use std::marker::Model;

/// The offset in place of that of no block: a block takes at least 4 of the span's 65,536 bytes, so none is there.
const NO_BLOCK: u16 = u16::MAX;

/// The position of a block, or that there is none.
#[derive(Clone, Copy, Drop)]
pub(crate) struct StoredPlace {
    at: u16,
    /// The length less one: 65,536 has no room.
    last: u16,
}

/// Its bytes are all the same, so that a table without a block is filled by one call.
const NONE: StoredPlace = StoredPlace {
    at: NO_BLOCK,
    last: u16::MAX,
};

impl StoredPlace {
    /// The position, if there is a block.
    fn place(self) -> Option<Place>
        ensures { result ≡ place_stored self }
    {
        if self.at == NO_BLOCK {
            None
        } else {
            Some(Place {
                at: self.at as u32,
                len: self.last as u32 + 1,
            })
        }
    }
}

/// The position of each name's block. It takes 4 bytes, where an `Option<Place>` takes 12.
#[derive(Drop)]
pub(crate) struct PlaceTable {
    stored: [StoredPlace; NAMES],
}

impl Model for PlaceTable {
    ghost use Rattle.std.specs.Prelude.{◌≡◌, List, Option, length, map};
    ghost use Rattle.mmem_core.specs.declared.place.Place.{Place};
    ghost use Rattle.mmem_core.specs.Code.StoredPlaces.{place_stored};

    ghost Value = { List (Option Place) };

    ghost view = { λ table. map place_stored table.stored };

    ghost invariant = { λ table. length table.stored ≡ 272 };
}

impl PlaceTable {
    /// No name has a block.
    pub(crate) fn new() -> Self
        ensures { result ≡ replicate NAMES None }
    {
        PlaceTable {
            stored: [NONE; NAMES],
        }
    }

    /// The position of a name's block, if it has one.
    pub(crate) fn get(&self, number: usize) -> Option<Place>
        requires { number < NAMES }
        ensures { result ≡ get_or self.now number None }
    {
        self.stored[number].place()
    }

    /// The position of a name's block, which it has.
    pub(crate) fn block(&self, number: usize) -> Place
        requires within { number < NAMES }
        requires live { IsSome (get_or self.now number None) }
        ensures { get_or self.now number None ≡ Some result }
    {
        let stored = self.stored[number];
        Place {
            at: stored.at as u32,
            len: stored.last as u32 + 1,
        }
    }

    /// A name's block is there from now on.
    pub(crate) fn put(&mut self, number: usize, place: Place)
        requires within { number < NAMES }
        requires at { place.at < 65535 }
        requires some_bytes { 1 ≤ place.len }
        requires most { place.len ≤ 65536 }
        ensures { self.new ≡ slice_set self.old number (Some place) }
    {
        self.stored[number] = StoredPlace {
            at: place.at as u16,
            last: (place.len - 1) as u16,
        };
    }

    /// A name has no block from now on.
    pub(crate) fn clear(&mut self, number: usize)
        requires { number < NAMES }
        ensures { self.new ≡ slice_set self.old number None }
    {
        self.stored[number] = NONE;
    }
}
