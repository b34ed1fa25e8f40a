//! Near which block a walk to a position may begin.

ghost use Rattle.std.specs.Prelude.{◌<◌};

/// The length of a part of the span.
const PART: u32 = 1024;

/// For each part of the span the number of a name, whose block was in the part below it and may have a gap after it. Whether it has
/// is looked up at each use: a number that is out of date makes a walk longer, and nothing else.
#[derive(Drop)]
pub struct Hints {
    names: [u8; 64],
}

impl Hints {
    pub(crate) fn new() -> Self {
        Hints { names: [0; 64] }
    }

    /// A name whose block may have a gap after it, somewhat below a position.
    pub(crate) fn below(&self, at: u32) -> u32
        ensures { result < 272 }
    {
        self.names[(at / PART % 64) as usize] as u32
    }

    /// A name's block is at a position, and may have a gap after it.
    pub(crate) fn put(&mut self, at: u32, name: usize) {
        self.names[((at / PART + 1) % 64) as usize] = (name % 256) as u8;
    }
}
