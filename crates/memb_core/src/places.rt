//! Positions in short lists.

ghost use Rattle.std.specs.Prelude.{◌≡◌, ◌≤◌, ◌==◌, not, length, filter};
ghost use Rattle.std.specs.List.{position};

/// The position of the first flag that is not set.
pub(crate) fn first_unset(flags: &[bool]) -> Option<usize>
    ensures { result ≡ position not flags.now }
{
    flags.iter().position(|flag| !*flag)
}

/// The number of flags that are not set.
pub(crate) fn count_unset(flags: &[bool]) -> usize
    ensures count { result ≡ length (filter not flags.now) }
    ensures bound { result ≤ length flags.now }
{
    flags.iter().filter(|flag| !**flag).count()
}

/// The first position of a number.
pub(crate) fn place_of(numbers: &[u8], number: u8) -> Option<usize>
    ensures { result ≡ position (λ other. other == number) numbers.now }
{
    numbers.iter().position(|other| *other == number)
}
