//! What an application may ask of the kernel.

use crate::event::Payload;
use crate::reply::Chunk;

/// The call by which an application ends a turn. Processes and event codes are named by their numbers.
///
/// Source: process.h, etimer.h, ctimer.h, memb.h, heapmem.h, list.h and queue.h of Contiki-NG, and for managed memory the
/// original Contiki's mmem module, here with handles from 0 to 15 instead of pointers; packets, which names are refused, and in
/// which order, and the numbers of blocks, pools and lists are this project's profile.
#[derive(Drop)]
pub enum Call {
    /// Puts an event of this code at the end of the event queue, for one process (`process_post`).
    Post(u8, u8, Payload),
    /// As `Post`, for every process on the process list (`PROCESS_BROADCAST`).
    Broadcast(u8, Payload),
    /// Delivers an event of this code to a process at once (`process_post_synch`).
    PostSynch(u8, u8, Payload),
    /// Marks a process for the next poll round (`process_poll`).
    Poll(u8),
    /// Puts a process at the head of the process list and delivers INIT to it (`process_start`).
    Start(u8),
    /// Ends another process, which receives EXIT (`process_exit`).
    Kill(u8),
    /// Asks whether a process runs, or is in its own activation (`process_is_running`).
    IsRunning(u8),
    /// Draws an event number that was never drawn (`process_alloc_event`).
    AllocEvent,
    /// Arms an event timer, 0 to 7: it runs out that many ticks after the present clock (`etimer_set`).
    TimerSet(u8, u32),
    /// Disarms an event timer (`etimer_stop`).
    TimerStop(u8),
    /// Arms an event timer with the interval that follows its last one, which begins where that one ended
    /// (`etimer_reset`).
    TimerReset(u8),
    /// Arms an event timer with its interval, from the present clock on (`etimer_restart`).
    TimerRestart(u8),
    /// Asks whether an event timer isn't armed: it was never set, or ran out, or was stopped (`etimer_expired`).
    TimerExpired(u8),
    /// Arms a callback timer, 0 to 3, as `TimerSet` arms an event timer. An expiry that still waits in the event queue
    /// no longer counts (`ctimer_set`).
    CallbackSet(u8, u32),
    /// Disarms a callback timer. An expiry that still waits in the event queue no longer counts (`ctimer_stop`).
    CallbackStop(u8),
    /// Asks for the clock, in ticks since boot (`clock_time`).
    Clock,
    /// Shows these bytes in the transcript.
    Print(Chunk),
    /// Ends the activation; the process goes on running.
    Wait,
    /// Ends the activation and the process (`PROCESS_EXIT`).
    Exit,
    // Managed memory.
    /// Allocates a block of n bytes, all 0, for a handle (`mmem_alloc`).
    MmemAlloc(u8, u32),
    /// Frees a handle's block (`mmem_free`).
    MmemFree(u8),
    /// Writes bytes into a handle's block, from an offset on.
    MmemWrite(u8, u32, Chunk),
    /// Reads from a handle's block, from an offset on: n bytes, at most 64.
    MmemRead(u8, u32, u8),
    /// Copies all bytes of the first handle's block to the front of the second one's.
    MmemCopy(u8, u8),
    /// Asks for the number of free bytes of managed memory.
    MmemAvail,
    // Heap memory: blocks 0 to 15 of each process.
    /// Allocates a block of n bytes, all 0 (`heapmem_alloc`).
    HeapAlloc(u8, u32),
    /// Resizes a block: its first bytes stay, and further ones are 0 (`heapmem_realloc`).
    HeapRealloc(u8, u32),
    /// Frees a block (`heapmem_free`).
    HeapFree(u8),
    /// Writes bytes into a block, from an offset on.
    HeapWrite(u8, u32, Chunk),
    /// Reads from a block, from an offset on: n bytes, at most 64.
    HeapRead(u8, u32, u8),
    /// Asks for the state of the whole heap (`heapmem_stats`).
    HeapStats,
    // Pools 0 to 3, each of 16 blocks.
    /// Allocates the unused block of lowest number of a pool, its bytes all 0 (`memb_alloc`).
    MembAlloc(u8),
    /// Frees a pool's block (`memb_free`).
    MembFree(u8, u8),
    /// Writes bytes into a pool's block, from an offset on.
    MembWrite(u8, u8, u32, Chunk),
    /// Reads from a pool's block, from an offset on: n bytes, at most 64.
    MembRead(u8, u8, u32, u8),
    /// Asks for the number of unused blocks of a pool (`memb_numfree`).
    MembNumFree(u8),
    // Lists 0 to 7 of blocks: 2 k and 2 k + 1 link blocks of pool k.
    /// Moves a block to the end of a list (`list_add`, `queue_enqueue`).
    ListAdd(u8, u8),
    /// Moves a block to the front of a list (`list_push`).
    ListPush(u8, u8),
    /// Moves the last-named block to directly after the other one of a list (`list_insert`).
    ListInsert(u8, u8, u8),
    /// Removes the head of a list (`list_pop`, `queue_dequeue`).
    ListPop(u8),
    /// Removes the tail of a list (`list_chop`).
    ListChop(u8),
    /// Removes a block from a list (`list_remove`).
    ListRemove(u8, u8),
    /// Asks for the head of a list (`list_head`).
    ListHead(u8),
    /// Asks for the block after another one of a list (`list_item_next`).
    ListNext(u8, u8),
    /// Asks for the number of blocks in a list (`list_length`).
    ListLength(u8),
    // Packets.
    /// Becomes the receiver of frames.
    PacketOpen,
    /// Reads from the front frame, from an offset on: n bytes, at most 64.
    PacketRead(u32, u8),
    /// Releases the front frame.
    PacketDone,
    /// Asks for the number of held frames.
    PacketCount,
    /// Sends the bytes of a handle's block as a frame. The block stays.
    PacketSend(u8),
}
