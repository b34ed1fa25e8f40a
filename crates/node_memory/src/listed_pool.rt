//! A pool with its two lists.

ghost use Rattle.std.specs.Prelude.{◌≡◌, ◌+◌, ◌*◌, ◌≤◌, length, IsSome};
ghost use Rattle.arena_core.specs.Code.Contents.{contents};
ghost use Rattle.memb_core.specs.BlockLists.{has_number};
ghost use Rattle.memb_core.specs.Code.Links.{AreLinked, list_of};
ghost use Rattle.memb_core.specs.Code.PoolBytes.{KeepsToSpan};
ghost use Rattle.node_memory.specs.Code.Conditions.{IfRefused};
ghost use Rattle.node_memory.specs.ListedPools as specs;
ghost use Rattle.node_memory.specs.ListedPools.{unused_pool_of};
ghost use Rattle.node_memory.specs.Code.Placed.{seen};
ghost use Rattle.node_memory.specs.Code.ListCalls as code;
ghost use Rattle.node_memory.specs.Code.ListCalls.{IsAnswered, pool_called};

use arena_core::Arena;
use memb_core::{ListName, Lists, Pool};
use mote_types::call::Call;
use mote_types::reply::Reply;

/// The number of blocks of a pool.
const BLOCKS: u8 = 16;

/// The number of bytes of a block's link.
const LINK_LEN: u32 = 4;

/// The bytes of the arena that a pool takes, by the number of usable bytes of its blocks.
pub fn pool_size(usable: u32) -> u32
    requires { usable ≤ 124 }
    ensures { result ≡ 16 * (usable + 4) }
{
    u32::from(BLOCKS) * (usable + LINK_LEN)
}

/// A pool with its two lists. Each call is passed the arena that they are in.
#[derive(Drop)]
pub struct ListedPool {
    pub pool: Pool,
    pub lists: Lists,
}

/// Which of its pool's lists this one is: lists 2 k and 2 k + 1 are those of pool k.
pub fn list_named(list: u8) -> ListName
    ensures { result ≡ specs.list_named list }
{
    if list % 2 == 0 {
        ListName::First
    } else {
        ListName::Second
    }
}

/// The other list of the same pool.
pub fn other_list(list: ListName) -> ListName
    ensures { result ≡ specs.other_list list }
{
    match list {
        ListName::First => ListName::Second,
        ListName::Second => ListName::First,
    }
}

/// Whether the list that a block is in, if it is in one, is this one.
fn is_holder(list: ListName, holder: Option<ListName>) -> bool
    ensures { result ≡ code.is_holder list holder }
{
    matches!(
        (list, holder),
        (ListName::First, Some(ListName::First)) | (ListName::Second, Some(ListName::Second))
    )
}

impl ListedPool {
    /// A pool over the next part of the arena, none of whose blocks is used, with two lists without a block.
    pub fn new(arena: &mut Arena, usable: u32) -> ListedPool
        requires few { usable ≤ 124 }
        requires room { arena.old.carved + 16 * (usable + 4) ≤ length arena.old.bytes }
        ensures at { result.pool.span.at ≡ arena.old.carved }
        ensures len { result.pool.span.len ≡ 16 * (usable + 4) }
        ensures carved { arena.new ≡ contents arena.old.bytes (arena.old.carved + 16 * (usable + 4)) }
        ensures linked { AreLinked result.lists result.pool arena.old.bytes }
        ensures unused { seen result arena.old.bytes ≡ unused_pool_of usable }
    {
        let span = arena.carve(pool_size(usable)).unwrap();
        ListedPool {
            pool: Pool::new(span, BLOCKS, usable),
            lists: Lists::new(),
        }
    }

    /// Whether a block is in this list.
    pub fn is_in(&self, arena: &Arena, list: ListName, block: u8) -> bool
        requires { AreLinked self.now.lists self.now.pool arena.now.bytes }
        ensures { result ≡ has_number block (list_of list self.now.lists self.now.pool arena.now.bytes) }
    {
        is_holder(list, self.lists.list_of(arena, &self.pool, block))
    }

    /// Executes a call on the pool or on one of its lists, and returns its reply. A refused call changes nothing.
    pub fn ask(&mut self, arena: &mut Arena, call: &Call) -> Reply
        requires linked { AreLinked self.old.lists self.old.pool arena.old.bytes }
        requires on_pool { IsSome (pool_called call.now) }
        ensures asked { IsAnswered call.now (seen self.old arena.old.bytes) (seen self.new arena.new.bytes) result }
        ensures refused { IfRefused result ((self.new ≡ self.old) × (arena.new ≡ arena.old)) }
        ensures linked { AreLinked self.new.lists self.new.pool arena.new.bytes }
        ensures rest { KeepsToSpan self.old.pool self.new.pool arena.old arena.new }
    {
        match call {
            Call::MembAlloc(_) => self.alloc(arena),
            Call::MembFree(_, block) => self.free(arena, *block),
            Call::MembWrite(_, block, at, chunk) => self.write(arena, *block, *at, chunk),
            Call::MembRead(_, block, at, len) => self.read(arena, *block, *at, *len),
            Call::MembNumFree(_) => Reply::Num(u32::from(self.pool.num_free())),
            Call::ListAdd(list, block) => self.add(arena, *list, *block),
            Call::ListPush(list, block) => self.push(arena, *list, *block),
            Call::ListInsert(list, prev, block) => self.insert(arena, *list, *prev, *block),
            Call::ListPop(list) => self.pop(arena, *list),
            Call::ListChop(list) => self.chop(arena, *list),
            Call::ListRemove(list, block) => self.remove(arena, *list, *block),
            Call::ListHead(list) => self.head(arena, *list),
            Call::ListNext(list, block) => self.next(arena, *list, *block),
            Call::ListLength(list) => self.length(arena, *list),
            _ => unreachable!(),
        }
    }
}
