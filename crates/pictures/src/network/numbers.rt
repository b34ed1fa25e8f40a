//! The numbers of motes in a line.

ghost use Rattle.std.specs.Prelude.{◌≡◌, ◌++◌, codes, decimal, IfSome, true};
ghost use Rattle.pictures.specs.Network.Lines.{is_mote, mote_in, two_motes_text};

use crate::transcript::number;

/// The number of a mote: at least 1.
pub(crate) fn mote_in(word: &str) -> Option<u64>
    ensures written { IfSome result (λ mote. word.now ≡ decimal mote) }
    ensures form { IfSome result (λ mote. is_mote mote ≡ true) }
    ensures whole { result ≡ mote_in word.now }
{
    match number(word) {
        Some(mote) if mote > 0 => Some(mote),
        _ => None,
    }
}

/// The numbers of two motes, with a space between them.
pub(crate) fn two_motes_in(text: &str) -> Option<(u64, u64)>
    ensures written { IfSome result (λ motes. text.now ≡ two_motes_text motes.0 motes.1) }
    ensures from { IfSome result (λ motes. is_mote motes.0 ≡ true) }
    ensures to { IfSome result (λ motes. is_mote motes.1 ≡ true) }
{
    let (from, to) = text.split_once(' ')?;
    Some((mote_in(from)?, mote_in(to)?))
}
