//! A tournament in a row of nodes: the last half are the players, in order; node k, from 1 on, has the earlier of the nodes 2k and
//! 2k + 1. So node 1 has the earliest of all.

ghost use Rattle.std.specs.Prelude.{◌≡◌, ◌≢◌, ◌≤◌, ◌<◌, ◌+◌, ◌^◌, ℕ, IfOk, drop, length};
ghost use Rattle.network_session.specs.Code.Tournaments.{IsRow, IsWon, player_at};

use crate::alarm::{Alarm, earlier};
use crate::fault::AlarmsFault;
use std::alloc::Global;

/// Plays the games from node `from` up to the root, where only that of `from` may be out of date.
pub(crate) fn climb(nodes: &mut Vec<Alarm>, count: usize, from: usize)
    requires size { length nodes.old.items ≡ count + count }
    requires few { count ≤ 2 ^ 32 }
    requires inner { from < count }
    requires won { (k : ℕ) → 1 ≤ k → k < count → k ≢ from → IsWon nodes.old.items k }
    ensures won { (k : ℕ) → 1 ≤ k → k < count → IsWon nodes.new.items k }
    ensures size { length nodes.new.items ≡ count + count }
    ensures players { drop count nodes.new.items ≡ drop count nodes.old.items }
{
    let mut at = from;
    while at > 0 {
        let winner = earlier(nodes[2 * at], nodes[2 * at + 1]);
        // The games above depend on this node alone of those that may have changed.
        if nodes[at] == winner {
            return;
        }
        nodes[at] = winner;
        at /= 2;
    }
}

/// Plays all games.
pub(crate) fn play(nodes: &mut Vec<Alarm>, count: usize)
    requires size { length nodes.old.items ≡ count + count }
    requires few { count ≤ 2 ^ 32 }
    ensures won { (k : ℕ) → 1 ≤ k → k < count → IsWon nodes.new.items k }
    ensures size { length nodes.new.items ≡ count + count }
    ensures players { drop count nodes.new.items ≡ drop count nodes.old.items }
{
    let mut at = count;
    while at > 1 {
        at -= 1;
        nodes[at] = earlier(nodes[2 * at], nodes[2 * at + 1]);
    }
}

/// The node in this position, where no game was played.
fn player(moments: &[u64], at: usize) -> Alarm
    requires { at < length moments.now + length moments.now }
    ensures { result ≡ player_at moments.now at }
{
    let count = moments.len();
    if at < count {
        Alarm {
            moment: 0,
            owner: 0,
        }
    } else {
        Alarm {
            moment: moments[at - count],
            owner: at - count,
        }
    }
}

/// A row for these moments, where no game was played.
pub(crate) fn row_of(alloc: Global, moments: &[u64]) -> Result<Vec<Alarm>, AlarmsFault>
    requires { length moments.now ≤ 2 ^ 32 }
    ensures row { IfOk result (λ nodes. IsRow moments.now (length moments.now + length moments.now) nodes.items) }
{
    let end = 2 * moments.len();
    let Ok(mut nodes) = Vec::with_capacity(alloc, end) else {
        return Err(AlarmsFault::Memory);
    };
    for at in 0..end {
        if nodes.push(player(moments, at)).is_err() {
            return Err(AlarmsFault::Memory);
        }
    }
    Ok(nodes)
}
