//! The positions of the chunks of all blocks.

ghost use Rattle.std.specs.Prelude.{◌≡◌, ◌<◌, get_or, slice_set, replicate, Some, None};
ghost use Rattle.heap_core.specs.Code.StoredPlaces.{place_stored};

use mote_types::block_name::NAMES;
use std::marker::Model;

/// In place of the position of no block: a chunk has a header in the span's 65,536 bytes, so none is there.
const NO_BLOCK: u16 = u16::MAX;

/// The position of the chunk of each name's block. It takes 2 bytes, where an `Option<u32>` takes 8.
#[derive(Drop)]
pub struct PlaceTable {
    stored: [u16; NAMES],
}

impl Model for PlaceTable {
    ghost use Rattle.std.specs.Prelude.{◌≡◌, ℕ, List, Option, length, map};
    ghost use Rattle.heap_core.specs.Code.StoredPlaces.{place_stored};

    ghost Value = { List (Option ℕ) };

    ghost view = { λ table. map place_stored table.stored };

    ghost invariant = { λ table. length table.stored ≡ 272 };
}

impl PlaceTable {
    /// No name has a block.
    pub(crate) fn new() -> Self
        ensures { result ≡ replicate NAMES None }
    {
        PlaceTable {
            stored: [NO_BLOCK; NAMES],
        }
    }

    /// The position of a name's chunk, if it has a block.
    pub(crate) fn get(&self, number: usize) -> Option<u32>
        requires { number < NAMES }
        ensures { result ≡ get_or self.now number None }
    {
        let at = self.stored[number];
        if at == NO_BLOCK {
            None
        } else {
            Some(at as u32)
        }
    }

    /// A name's chunk is there from now on.
    pub(crate) fn put(&mut self, number: usize, at: u32)
        requires within { number < NAMES }
        requires at { at < 65535 }
        ensures { self.new ≡ slice_set self.old number (Some at) }
    {
        self.stored[number] = at as u16;
    }

    /// A name has no block from now on.
    pub(crate) fn clear(&mut self, number: usize)
        requires { number < NAMES }
        ensures { self.new ≡ slice_set self.old number None }
    {
        self.stored[number] = NO_BLOCK;
    }
}
