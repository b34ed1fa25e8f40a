//! What is read from bytes and written to them that were lent.

ghost use Rattle.std.specs.Prelude.{◌≡◌, ◌+◌, ◌≤◌, length, slice_range, replicate};
ghost use Rattle.std.specs.Int.{from_le_bytes, to_le_bytes};
ghost use mir.Syntax.{w32};
ghost use Rattle.arena_core.specs.Code.Written.{written};

/// Writes one byte over all of them.
pub(crate) fn fill_bytes(run: &mut [u8], byte: u8)
    ensures { run.new ≡ replicate (length run.old) byte }
{
    run.fill(byte);
}

/// The number in four bytes, the low byte first.
pub(crate) fn word_of(run: &[u8]) -> u32
    requires { length run.now ≡ 4 }
    ensures { result ≡ from_le_bytes w32 run.now }
{
    u32::from_le_bytes([run[0], run[1], run[2], run[3]])
}

/// Writes a number into four bytes, the low byte first.
pub(crate) fn put_bytes(run: &mut [u8], word: u32)
    requires { length run.old ≡ 4 }
    ensures { run.new ≡ to_le_bytes w32 word }
{
    let bytes = word.to_le_bytes();
    run.copy_from_slice(&bytes);
}

/// Moves `len` bytes. The two ranges may overlap: `copy_within` copies in the order that keeps the source.
pub(crate) fn slide_bytes(all: &mut [u8], from: usize, to: usize, len: usize)
    requires { (from + len ≤ length all.old) × (to + len ≤ length all.old) }
    ensures { all.new ≡ written all.old to (slice_range all.old from (from + len)) }
{
    all.copy_within(from..from + len, to);
}
