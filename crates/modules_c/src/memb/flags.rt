//! Flags, whatever they mean.

ghost use Rattle.std.specs.Prelude.{◌≡◌, not, false, length, filter, replicate, slice_index_or};
ghost use Rattle.std.specs.List.{position};

/// Unsets each flag.
pub fn unset_all(flags: &mut [bool])
    ensures { flags.new ≡ replicate (length flags.old) false }
{
    flags.fill(false);
}

/// Whether the flag at this position is set. Where there is none it is not.
pub fn is_set(flags: &[bool], index: usize) -> bool
    ensures { result ≡ slice_index_or flags.now index false }
{
    flags.get(index).copied().unwrap_or(false)
}

/// The position of the first flag that is not set.
pub fn first_unset(flags: &[bool]) -> Option<usize>
    ensures { result ≡ position not flags.now }
{
    flags.iter().position(|flag| !*flag)
}

/// The number of flags that are not set.
pub fn count_unset(flags: &[bool]) -> usize
    ensures { result ≡ length (filter not flags.now) }
{
    flags.iter().filter(|flag| !**flag).count()
}
