//! A frame in flight.

ghost use Rattle.std.specs.Prelude.{◌≡◌};

use arrayvec::ArrayVec;

/// A frame on its way over one link.
#[derive(Drop)]
pub struct Flight {
    /// The moment of its arrival, in ticks since boot.
    pub due: u64,
    /// The number of its sender.
    pub from: usize,
    /// The position of the link in its sender's list.
    pub position: usize,
    /// The number of its receiver.
    pub to: usize,
    pub bytes: ArrayVec<u8, 127>,
}

/// The same bytes once more; needs no memory.
pub fn copied(bytes: &ArrayVec<u8, 127>) -> ArrayVec<u8, 127>
    ensures { result ≡ bytes.now }
{
    let mut copy = ArrayVec::new();
    let _ = copy.try_extend_from_slice(bytes.as_slice());
    copy
}
