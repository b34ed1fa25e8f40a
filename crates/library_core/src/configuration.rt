//! The configuration of a mote, in numbers.

ghost use Rattle.std.specs.Prelude.{◌≡◌};
ghost use Rattle.library_core.specs.Configurations.{is_quiet, sizes_of};

use node_memory::Sizes;

/// The configuration of a mote. Each number may be any; sizes are in bytes.
#[repr(C)]
#[derive(Drop)]
pub struct Configuration {
    /// Managed memory: a multiple of 4 from 4 to 65,536.
    pub mmem: u32,
    /// Heap memory: a multiple of 4 from 20 to 65,536.
    pub heap: u32,
    /// A header in heap memory: 16 or 8.
    pub header: u32,
    /// 0 where each process may take all managed memory that is free, and `quota` says nothing.
    pub has_quota: u32,
    /// Managed memory for each application and for the frames: a multiple of 4 from 4 to 65,536.
    pub quota: u32,
    /// Not 0 where the transcript is a quiet one.
    pub quiet: u32,
}

impl Configuration {
    /// The sizes of the mote's memory.
    pub fn sizes(&self) -> Sizes
        ensures { result ≡ sizes_of self.now }
    {
        let quota = if self.has_quota == 0 {
            None
        } else {
            Some(self.quota)
        };
        Sizes {
            mmem: self.mmem,
            heap: self.heap,
            header: self.header,
            quota,
        }
    }

    /// Whether the transcript is a quiet one.
    pub fn is_quiet(&self) -> bool
        ensures { result ≡ is_quiet self.now }
    {
        self.quiet != 0
    }
}
