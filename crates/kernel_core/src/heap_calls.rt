//! What the kernel does at an application's calls on heap memory. A call that is refused changes nothing.

ghost use Rattle.std.specs.Prelude.{◌≡◌};
ghost use Rattle.mote_types.specs.declared.call.Call.{Call};
ghost use Rattle.kernel_core.specs.Calls.{after_call};
ghost use Rattle.kernel_core.specs.Code.View.{machine_of, IsAtTurn, IsCarriedOut};

use crate::calls::answer_bytes;
use crate::kernel_fields::KernelFields;
use mote_types::event::Pid;
use mote_types::reply::{Chunk, Reply};

impl KernelFields {
    /// Makes a block of `n` zeros.
    pub fn alloc_in_heap(&mut self, pid: Pid, block: u8, n: u32)
        requires at_turn { IsAtTurn pid self.old }
        ensures machine { machine_of self.new ≡ after_call (Call.HeapAlloc block n) pid.0 (machine_of self.old) }
        ensures kept { IsCarriedOut self.old self.new }
    {
        let outcome = self.memory.heap_alloc(pid, block, n);
        self.tell(pid, outcome);
    }

    /// Resizes a block: its first bytes stay, and further ones are 0.
    pub fn resize_in_heap(&mut self, pid: Pid, block: u8, n: u32)
        requires at_turn { IsAtTurn pid self.old }
        ensures machine { machine_of self.new ≡ after_call (Call.HeapRealloc block n) pid.0 (machine_of self.old) }
        ensures kept { IsCarriedOut self.old self.new }
    {
        let outcome = self.memory.heap_realloc(pid, block, n);
        self.tell(pid, outcome);
    }

    /// Frees a block.
    pub fn free_in_heap(&mut self, pid: Pid, block: u8)
        requires at_turn { IsAtTurn pid self.old }
        ensures machine { machine_of self.new ≡ after_call (Call.HeapFree block) pid.0 (machine_of self.old) }
        ensures kept { IsCarriedOut self.old self.new }
    {
        let outcome = self.memory.heap_free(pid, block);
        self.tell(pid, outcome);
    }

    /// Writes bytes into a block, from offset `at` on.
    pub fn write_in_heap(&mut self, pid: Pid, block: u8, at: u32, chunk: &Chunk)
        requires at_turn { IsAtTurn pid self.old }
        ensures machine { machine_of self.new ≡ after_call (Call.HeapWrite block at chunk.now) pid.0 (machine_of self.old) }
        ensures kept { IsCarriedOut self.old self.new }
    {
        let outcome = self.memory.heap_write(pid, block, at, chunk.as_slice());
        self.tell(pid, outcome);
    }

    /// Reads `len` bytes of a block, from offset `at` on.
    pub fn read_in_heap(&mut self, pid: Pid, block: u8, at: u32, len: u8)
        requires at_turn { IsAtTurn pid self.old }
        ensures machine { machine_of self.new ≡ after_call (Call.HeapRead block at len) pid.0 (machine_of self.old) }
        ensures kept { IsCarriedOut self.old self.new }
    {
        match self.memory.heap_range(pid, block, at, len) {
            Ok(bytes) => answer_bytes(&mut self.scheduler, pid, bytes),
            Err(refusal) => self.refuse(pid, refusal),
        }
    }

    /// Returns the state of the whole heap.
    pub fn tell_heap_stats(&mut self, pid: Pid)
        requires at_turn { IsAtTurn pid self.old }
        ensures machine { machine_of self.new ≡ after_call Call.HeapStats pid.0 (machine_of self.old) }
        ensures kept { IsCarriedOut self.old self.new }
    {
        let stats = self.memory.heap_stats();
        self.answer(pid, Reply::Stats(stats));
    }
}
