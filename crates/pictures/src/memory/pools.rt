//! Pools and their lists: which blocks are used, and which of these are in a list.

use crate::memory::RepliedCall;
use crate::memory::stay::{Record, Sought, Stay};
use crate::numbers::{Asked, number_in_reply, number_of};

/// The number of blocks of a pool.
pub const BLOCKS: u64 = 16;

/// The number that a pool's block has among all.
fn number_among_all(pool: u64, block: u64) -> u64 {
    pool.saturating_mul(BLOCKS).saturating_add(block)
}

/// The stay of a block from a row on.
fn stay_of(pid: usize, name: u64, at: u64, row: usize) -> Stay {
    Stay {
        pid,
        name,
        at,
        taken: 1,
        size: 1,
        first: row,
        last: None,
    }
}

/// The block that a call on a list is about: the one in its reply, otherwise its last number.
fn block_of(reply: &str, last: u64) -> u64 {
    match reply.strip_prefix("num ") {
        Some(number) => number_of(Some(number)),
        None => last,
    }
}

/// A call on a pool was accepted. The used blocks are recorded each at the number that it has among all.
pub(crate) fn carry_out(used: &mut Record, called: &RepliedCall<'_>, asked: &Asked<'_>) {
    match asked.name {
        "memb-alloc" => {
            let at = number_among_all(asked.first, number_in_reply(called.reply));
            used.begin(stay_of(called.pid, at, at, called.row));
        }
        "memb-free" => {
            let at = number_among_all(asked.first, asked.second);
            used.end(Sought::At(at), called.row);
        }
        _ => {}
    }
}

/// The same for a call on a list. The blocks in lists are recorded by the name of the list.
pub(crate) fn carry_out_on_list(linked: &mut Record, called: &RepliedCall<'_>, asked: &Asked<'_>) {
    let list = asked.first;
    let at = number_among_all(list / 2, block_of(called.reply, asked.last));
    match asked.name {
        "list-add" | "list-push" | "list-insert" => {
            // One that is in its list already only moves to another position there.
            if linked.find(Sought::At(at)).is_none() {
                linked.begin(stay_of(called.pid, list, at, called.row));
            }
        }
        "list-remove" | "list-pop" | "list-chop" => linked.end(Sought::At(at), called.row),
        _ => {}
    }
}
