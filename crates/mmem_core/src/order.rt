//! The order of the blocks in the span.

ghost use Rattle.std.specs.Prelude.{◌≡◌, ◌<◌, ◌≤◌, IfSome, Some, None, get_or, replicate};
ghost use Rattle.mmem_core.specs.Code.Ring.{Names, appended, removed};

use mote_types::block_name::NAMES;

/// One more entry than there are names: it is for both ends.
const ENTRIES: usize = NAMES + 1;

/// The entry for both ends, as a link names it.
const ENDS: u16 = NAMES as u16;

/// The names that have a block, in the order of their positions.
///
/// Each one's entry is linked with that of the block before and that of the block after it, in a ring. So a block is
/// removed without a search.
#[derive(Drop)]
pub(crate) struct Order {
    before: [u16; ENTRIES],
    after: [u16; ENTRIES],
}

/// The number that a link names, if it isn't an end.
fn linked(link: u16) -> Option<usize>
    requires { link ≤ NAMES }
    ensures number { Names link result }
    ensures within { IfSome result (λ number. number < NAMES) }
{
    if link == ENDS {
        None
    } else {
        Some(link as usize)
    }
}

impl Order {
    /// No name has a block.
    pub(crate) fn new() -> Self
        ensures { result ≡ record { before = replicate ENTRIES ENDS; after = replicate ENTRIES ENDS } }
    {
        Order {
            before: [ENDS; ENTRIES],
            after: [ENDS; ENTRIES],
        }
    }

    /// The name of the lowest block.
    pub(crate) fn first(&self) -> Option<usize>
        requires { get_or self.now.after NAMES 0 ≤ NAMES }
        ensures number { Names (get_or self.now.after NAMES 0) result }
        ensures within { IfSome result (λ number. number < NAMES) }
    {
        linked(self.after[NAMES])
    }

    /// The name of the highest block.
    pub(crate) fn last(&self) -> Option<usize>
        requires { get_or self.now.before NAMES 0 ≤ NAMES }
        ensures number { Names (get_or self.now.before NAMES 0) result }
        ensures within { IfSome result (λ number. number < NAMES) }
    {
        linked(self.before[NAMES])
    }

    /// The name of the next block after this one's.
    pub(crate) fn next(&self, number: usize) -> Option<usize>
        requires within { number < NAMES }
        requires link { get_or self.now.after number 0 ≤ NAMES }
        ensures number { Names (get_or self.now.after number 0) result }
        ensures within { IfSome result (λ number. number < NAMES) }
    {
        linked(self.after[number])
    }

    /// A name's block is the highest from now on.
    pub(crate) fn append(&mut self, number: usize)
        requires within { number < NAMES }
        requires last { get_or self.old.before NAMES 0 ≤ NAMES }
        ensures { self.new ≡ appended number self.old }
    {
        let last = self.before[NAMES];
        self.after[last as usize] = number as u16;
        self.before[number] = last;
        self.after[number] = ENDS;
        self.before[NAMES] = number as u16;
    }

    /// A name has no block from now on.
    pub(crate) fn remove(&mut self, number: usize)
        requires within { number < NAMES }
        requires lower { get_or self.old.before number 0 ≤ NAMES }
        requires higher { get_or self.old.after number 0 ≤ NAMES }
        ensures { self.new ≡ removed number self.old }
    {
        let before = self.before[number];
        let after = self.after[number];
        self.after[before as usize] = after;
        self.before[after as usize] = before;
    }
}
