//! How bytes are counted in words of four.

ghost use Rattle.std.specs.Prelude.{◌≡◌};
ghost use Rattle.mote_types.specs.Rounding.{up4};

/// The least multiple of 4 not below `n`.
#[inline]
pub fn rounded(n: u32) -> u64
    ensures { result ≡ up4 n }
{
    (n as u64 + 3) / 4 * 4
}
