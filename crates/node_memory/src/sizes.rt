//! How large the regions of a node's memory are.

ghost use Rattle.std.specs.Prelude.{◌≡◌};
ghost use Rattle.node_memory.specs.Sizes as specs;

/// The sizes of the regions, in bytes (this project's profile).
#[derive(Clone, Copy, Drop)]
pub struct Sizes {
    /// Managed memory: 4 to 65,536, a multiple of 4.
    pub mmem: u32,
    /// The heap: 20 to 65,536, a multiple of 4.
    pub heap: u32,
    /// The header of a block of the heap: 16 or 8.
    pub header: u32,
    /// The bytes of managed memory that process 3 and each application may hold, where that is limited: 4 to 65,536, a
    /// multiple of 4. Managed memory has room for all of these together.
    pub quota: Option<u32>,
}

/// Whether a region may have this size, which must be at least `least`.
fn is_region_size(least: u32, size: u32) -> bool
    ensures { result ≡ specs.is_region_size least size }
{
    least <= size && size <= 65_536 && size % 4 == 0
}

/// Whether process 3 and each of the applications may have this quota, where managed memory has `mmem` bytes.
fn is_quota(mmem: u32, applications: u8, quota: u32) -> bool
    ensures { result ≡ specs.is_quota mmem applications quota }
{
    is_region_size(4, quota) && quota * (applications as u32 + 1) <= mmem
}

impl Sizes {
    /// Whether the memory of a node with that number of applications may have these sizes.
    pub fn are_allowed(&self, applications: u8) -> bool
        ensures { result ≡ specs.are_sizes self.now applications }
    {
        let are_quotas = match self.quota {
            Some(quota) => is_quota(self.mmem, applications, quota),
            None => true,
        };
        is_region_size(4, self.mmem)
            && is_region_size(20, self.heap)
            && (self.header == 16 || self.header == 8)
            && are_quotas
    }
}
