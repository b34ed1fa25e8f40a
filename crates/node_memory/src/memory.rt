//! The arena with all that is in it, and the calls on it.

ghost use Rattle.std.specs.Prelude.{◌≡◌, ℕ, ◌↔◌, ◌≤◌, ◌+◌, ◌*◌, true, false, length, map, sum_by, Some, IfOk, IsErrOf};
ghost use Rattle.node_memory.specs.Memory.{usable_sizes};
ghost use Rattle.node_memory.specs.ListedPools.{unused_pool_of};
ghost use Rattle.node_memory.specs.Code.Placed.{seen};
ghost use Rattle.node_memory.specs.Code.Layout.{LieBehind};
ghost use Rattle.node_memory.specs.Sizes.{are_sizes};
ghost use Rattle.node_memory.specs.Code.Ask as asking;
ghost use Rattle.node_memory.specs.Code.Conditions as asking_conditions;
ghost use Rattle.node_memory.specs.Code.Conditions.{IfRefused};
ghost use Rattle.node_memory.specs.Code.Conditions.{is_memory_call};
ghost use Rattle.node_memory.specs.Code.Parts as parts;
ghost use Rattle.node_memory.specs.declared.parts.Part as part;

use crate::listed_pool::{ListedPool, pool_size};
use crate::parts::{Part, part_called};
use crate::sizes::Sizes;
use arena_core::Arena;
use heap_core::Heap;
use mmem_core::Mmem;
use mote_types::call::Call;
use mote_types::event::Pid;
use mote_types::fault::BootFault;
use mote_types::refusal::Refusal;
use mote_types::reply::Reply;
use std::alloc::Global;
use std::marker::Model;

/// The number of pools.
const POOLS: usize = 4;

/// The number of usable bytes of a block of each pool (this project's profile).
const USABLE: [u32; POOLS] = [12, 28, 60, 124];

/// The bytes of the arena that all pools take.
fn pools_size() -> u32
    ensures { result ≡ sum_by (λ usable. 16 * (usable + 4)) usable_sizes }
{
    pool_size(USABLE[0]) + pool_size(USABLE[1]) + pool_size(USABLE[2]) + pool_size(USABLE[3])
}

/// All pools, one after the other over the next parts of the arena.
fn pools_over(arena: &mut Arena) -> [ListedPool; POOLS]
    requires { arena.old.carved + sum_by (λ usable. 16 * (usable + 4)) usable_sizes ≤ length arena.old.bytes }
    ensures bytes { arena.new.bytes ≡ arena.old.bytes }
    ensures count { length result ≡ 4 }
    ensures places { LieBehind arena.old.carved result arena.new.bytes }
    ensures unused { map (λ listed. seen listed arena.new.bytes) result ≡ map unused_pool_of usable_sizes }
{
    [
        ListedPool::new(arena, USABLE[0]),
        ListedPool::new(arena, USABLE[1]),
        ListedPool::new(arena, USABLE[2]),
        ListedPool::new(arena, USABLE[3]),
    ]
}

/// The memory of a node, in one arena.
#[derive(Drop)]
pub struct NodeMemory {
    pub(crate) arena: Arena,
    pub(crate) mmem: Mmem,
    pub(crate) heap: Heap,
    pools: [ListedPool; POOLS],
}

impl Model for NodeMemory {
    ghost use Rattle.node_memory.specs.Code.Layout.{IsLaidOut};
    ghost use Rattle.node_memory.specs.Code.Placed.{PlacedMemory, placed};

    ghost Value = { PlacedMemory };

    ghost view = { λ m. placed (record { managed = m.mmem; heap = m.heap; pools = m.pools; bytes = m.arena.bytes }) };

    ghost invariant = { λ m. IsLaidOut (record { managed = m.mmem; heap = m.heap; pools = m.pools; bytes = m.arena.bytes }) };
}

impl NodeMemory {
    ghost use Rattle.node_memory.specs.Memory.{fresh_memory};
    ghost use Rattle.node_memory.specs.Code.Placed.{last_owner};
    ghost use Rattle.node_memory.specs.Code.Separation.{BlocksLieApart, LeavesAll, LeavesOthers, changed_block};

    /// The memory of a node with that number of applications, without a block. All memory is allocated here.
    ///
    /// # Errors
    /// `BadSizes` exactly where a size or the quota is out of its range or no multiple of 4, where a header has neither 16 nor
    /// 8 bytes, or where managed memory has no room for all quotas, however little memory there is; otherwise `Memory` where
    /// memory is refused.
    pub fn new(alloc: Global, sizes: Sizes, applications: u8) -> Result<NodeMemory, BootFault>
        requires { applications ≤ 16 }
        ensures fresh { IfOk result (λ memory. memory.contents ≡ fresh_memory sizes) }
        ensures owners { IfOk result (λ memory. 3 + applications ≤ last_owner memory) }
        ensures bad_sizes { IsErrOf result BootFault.BadSizes ↔ (are_sizes sizes applications ≡ false) }
    {
        if !sizes.are_allowed(applications) {
            return Err(BootFault::BadSizes);
        }
        let mut arena = Arena::new(alloc, sizes.mmem + sizes.heap + pools_size()).map_err(
            |_| BootFault::Memory,
        )?;
        let mmem = Mmem::new(
            arena.carve(sizes.mmem).unwrap(),
            sizes.quota,
            applications + 1,
        );
        let heap = Heap::new(arena.carve(sizes.heap).unwrap(), sizes.header);
        let pools = pools_over(&mut arena);
        Ok(NodeMemory {
            arena,
            mmem,
            heap,
            pools,
        })
    }

    /// Executes an application's call on memory, and returns its reply. A refused call changes no block, and moves none.
    ///
    /// Process 3 too may make a call. Where there are quotas, the caller is one of the processes that have one.
    #[tactic(auto, using(crate::proofs::Stays::refused_leaves))]
    pub fn ask(&mut self, pid: Pid, call: &Call) -> Reply
        requires on_memory { is_memory_call call.now ≡ true }
        requires asker { asking_conditions.MayAsk pid.0 }
        requires owner { pid.0 ≤ last_owner self.old }
        ensures asked { asking.ask call.now pid.0 self.old.contents ≡ (self.new.contents, result) }
        ensures refused { IfRefused result (LeavesAll call.now result self.old self.new) }
        ensures others { LeavesOthers (changed_block call.now pid.0 self.old.contents) self.old.contents self.new.contents }
        ensures owners { last_owner self.new ≡ last_owner self.old }
    {
        match part_called(call) {
            Some(Part::Managed) => self.ask_managed(pid, call),
            Some(Part::Heap) => self.ask_heap(pid, call),
            Some(Part::Pool(pool)) => self.ask_pool(pool, call),
            None => unreachable!(),
        }
    }

    /// Executes a call on managed memory.
    fn ask_managed(&mut self, pid: Pid, call: &Call) -> Reply
        requires asker { asking_conditions.MayAsk pid.0 }
        requires owner { pid.0 ≤ last_owner self.old }
        requires part { parts.part_called call.now ≡ Some part.Part.Managed }
        ensures asked { asking.ask call.now pid.0 self.old.contents ≡ (self.new.contents, result) }
        ensures refused { IfRefused result (self.new ≡ self.old) }
        ensures owners { last_owner self.new ≡ last_owner self.old }
    {
        match call {
            Call::MmemAlloc(handle, n) => {
                Reply::done_or_refused(self.mmem_alloc(pid, *handle, *n))
            }
            Call::MmemFree(handle) => Reply::done_or_refused(self.mmem_free(pid, *handle)),
            Call::MmemWrite(handle, at, chunk) => {
                Reply::done_or_refused(self.mmem_write(pid, *handle, *at, chunk.as_slice()))
            }
            Call::MmemRead(handle, at, len) => self.mmem_read(pid, *handle, *at, *len),
            Call::MmemCopy(source, target) => {
                Reply::done_or_refused(self.mmem_copy(pid, *source, *target))
            }
            Call::MmemAvail => Reply::Num(self.mmem_avail(pid)),
            _ => unreachable!(),
        }
    }

    /// Executes a call on heap memory.
    fn ask_heap(&mut self, pid: Pid, call: &Call) -> Reply
        requires asker { asking_conditions.MayAsk pid.0 }
        requires part { parts.part_called call.now ≡ Some part.Part.Heap }
        ensures asked { asking.ask call.now pid.0 self.old.contents ≡ (self.new.contents, result) }
        ensures refused { IfRefused result (LeavesAll call.now result self.old self.new) }
        ensures owners { last_owner self.new ≡ last_owner self.old }
    {
        match call {
            Call::HeapAlloc(block, n) => {
                Reply::done_or_refused(self.heap_alloc(pid, *block, *n))
            }
            Call::HeapRealloc(block, n) => {
                Reply::done_or_refused(self.heap_realloc(pid, *block, *n))
            }
            Call::HeapFree(block) => { Reply::done_or_refused(self.heap_free(pid, *block)) }
            Call::HeapWrite(block, at, chunk) => {
                Reply::done_or_refused(self.heap_write(pid, *block, *at, chunk.as_slice()))
            }
            Call::HeapRead(block, at, len) => self.heap_read(pid, *block, *at, *len),
            Call::HeapStats => Reply::Stats(self.heap_stats()),
            _ => unreachable!(),
        }
    }

    /// Executes a call on a pool or on one of its lists.
    fn ask_pool(&mut self, pool: u8, call: &Call) -> Reply
        requires part { parts.part_called call.now ≡ Some (part.Part.Pool pool) }
        ensures asked { (p : ℕ) → asking.ask call.now p self.old.contents ≡ (self.new.contents, result) }
        ensures refused { IfRefused result (self.new ≡ self.old) }
        ensures owners { last_owner self.new ≡ last_owner self.old }
    {
        if pool as usize >= POOLS {
            return Reply::Refused(Refusal::BadName);
        }
        self.pools[pool as usize].ask(&mut self.arena, call)
    }

    /// No two live blocks share a byte of the arena, whatever their kinds, headers and links included, and each one's bytes are
    /// read from the part that it takes.
    pub fn blocks_lie_apart(&self)
        ensures { BlocksLieApart self.now }
    {
        // Does nothing: the clause states what holds of the memory after any calls.
        self.mmem.blocks_lie_apart();
        self.pools[0].pool.blocks_lie_apart();
        self.pools[1].pool.blocks_lie_apart();
        self.pools[2].pool.blocks_lie_apart();
        self.pools[3].pool.blocks_lie_apart();
        let _arena = &self.arena;
    }
}
