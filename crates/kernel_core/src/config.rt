//! What a mote is made of.

ghost use Rattle.std.specs.Prelude.{◌≡◌};
ghost use Rattle.kernel_core.specs.Machine as machine;

use node_memory::Sizes;

/// The sizes of a mote (this project's profile).
#[derive(Clone, Copy, Debug, PartialEq, Eq, Drop)]
pub struct Config {
    /// The bytes of managed memory: 4 to 65,536, a multiple of 4.
    pub mmem: u32,
    /// The bytes of the heap: 20 to 65,536, a multiple of 4.
    pub heap: u32,
    /// The number of applications: 0 to 16.
    pub apps: u8,
    /// The bytes of managed memory that process 3 and each application may hold, where that is limited: 4 to 65,536, a
    /// multiple of 4. Managed memory has room for all of these together.
    pub quota: Option<u32>,
    /// The bytes of a header in the heap: 16 or 8.
    pub header: u32,
}

impl Config {
    /// The sizes of its memory.
    pub(crate) fn sizes(&self) -> Sizes
        ensures { result ≡ machine.sizes_of self.now }
    {
        Sizes {
            mmem: self.mmem,
            heap: self.heap,
            header: self.header,
            quota: self.quota,
        }
    }
}
