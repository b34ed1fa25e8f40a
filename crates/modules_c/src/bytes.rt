//! What is written to bytes.

ghost use Rattle.std.specs.Prelude.{◌≡◌, ◌+◌, ◌≤◌, length, slice_range};
ghost use Rattle.mote_types.specs.Bytes.{zeros};
ghost use Rattle.arena_core.specs.Code.Written.{written};

/// Writes zeros over a range.
pub fn clear(bytes: &mut [u8], at: usize, len: usize)
    requires { at + len ≤ length bytes.old }
    ensures { bytes.new ≡ written bytes.old at (zeros len) }
{
    bytes[at..at + len].fill(0);
}

/// Copies a range to another offset, if it isn't there already. The two may overlap.
pub fn copy(bytes: &mut [u8], from: usize, len: usize, to: usize)
    requires source { from + len ≤ length bytes.old }
    requires target { to + len ≤ length bytes.old }
    ensures { bytes.new ≡ written bytes.old to (slice_range bytes.old from (from + len)) }
{
    if from == to {
        return;
    }
    bytes.copy_within(from..from + len, to);
}
