//! How a link is written as a word: 0 for none, otherwise the number of the block and 1.

ghost use Rattle.std.specs.Prelude.{◌≡◌, ◌<◌, IfSome};
ghost use Rattle.memb_core.specs.Code.Links.{named_by};

/// The word for a link.
pub(crate) fn word_of(next: Option<u8>) -> u32
    ensures { named_by result ≡ next }
{
    match next {
        Some(number) => number as u32 + 1,
        None => 0,
    }
}

/// The block that a link names.
pub(crate) fn block_named(word: u32) -> Option<u8>
    requires { IfSome (named_by word) (λ number. number < 256) }
    ensures { result ≡ named_by word }
{
    if word == 0 {
        None
    } else {
        Some((word - 1) as u8)
    }
}
