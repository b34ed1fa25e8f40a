//! What became of a frame over its sender's links.

ghost use Rattle.std.specs.Prelude.{◌≡◌, ◌≤◌, ◌<◌, ◌++◌, [], drop, length, true, IfSome, IfNone};
ghost use Rattle.network_steps.specs.NetworkText.{fate_lines};
ghost use Rattle.network_steps.specs.Lines.{is_loss, loss_line};

use crate::came::Came;
use medium_core::link::{Fate, Link};

/// The first of these links, from a position on, that didn't carry the frame which mote `from` sent; and the position after it.
pub(crate) fn next_fate(from: usize, links: &[Link], place: usize) -> Option<(Came, usize)>
    ensures some { IfSome result (λ next. fate_lines from (drop place links.now) ≡ loss_line next.0 ++ fate_lines from (drop next.1 links.now)) }
    ensures further { IfSome result (λ next. (place < next.1) × (next.1 ≤ length links.now)) }
    ensures loss { IfSome result (λ next. is_loss next.0 ≡ true) }
    ensures none { IfNone result (fate_lines from (drop place links.now) ≡ []) }
{
    let mut at = place;
    while at < links.len() {
        let link = links[at];
        at += 1;
        match link.last {
            Fate::Lost => return Some((Came::Lost(from, link.to), at)),
            Fate::Full => return Some((Came::Full(from, link.to), at)),
            Fate::Carried | Fate::Unused => {}
        }
    }
    None
}
