//! The first size with which no mote boots.

ghost use Rattle.std.specs.Prelude.{◌≡◌, ◌≤◌};
ghost use Rattle.node_memory.specs.Sizes as memory;
ghost use Rattle.library_core.specs.Reasons.{quota_reason, size_reason};

use crate::refusal::SizeReason;
use node_memory::Sizes;

/// Whether a region of at least `least` bytes may have this size.
fn is_region_size(least: u32, size: u32) -> bool
    ensures { result ≡ memory.is_region_size least size }
{
    least <= size && size <= 65_536 && size % 4 == 0
}

/// Why no mote with this number of applications has this quota of its managed memory.
fn quota_reason(mmem: u32, applications: u32, quota: u32) -> Option<SizeReason>
    requires { applications ≤ 16 }
    ensures { result ≡ quota_reason mmem applications (Some quota) }
{
    if !is_region_size(4, quota) {
        return Some(SizeReason::Quota);
    }
    if quota * (applications + 1) > mmem {
        return Some(SizeReason::AllQuotas);
    }
    None
}

/// The first of the sizes with which no mote with this number of applications boots.
pub fn size_reason(sizes: &Sizes, applications: u32) -> Option<SizeReason>
    requires { applications ≤ 16 }
    ensures { result ≡ size_reason sizes.now applications }
{
    if !is_region_size(4, sizes.mmem) {
        return Some(SizeReason::Mmem);
    }
    if !is_region_size(20, sizes.heap) {
        return Some(SizeReason::Heap);
    }
    if sizes.header != 16 && sizes.header != 8 {
        return Some(SizeReason::Header);
    }
    quota_reason(sizes.mmem, applications, sizes.quota?)
}
