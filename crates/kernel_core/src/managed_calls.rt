//! What the kernel does at an application's calls on managed memory. A call that is refused changes nothing.

ghost use Rattle.std.specs.Prelude.{◌≡◌};
ghost use Rattle.mote_types.specs.declared.call.Call.{Call};
ghost use Rattle.kernel_core.specs.Calls.{after_call};
ghost use Rattle.kernel_core.specs.Code.View.{machine_of, IsAtTurn, IsCarriedOut};

use crate::calls::answer_bytes;
use crate::kernel_fields::KernelFields;
use mote_types::event::Pid;
use mote_types::reply::{Chunk, Reply};

// Each is a function of its own: inlined they would take registers and room from all other calls.
impl KernelFields {
    /// Allocates a block of `n` zeros for a handle.
    #[inline(never)]
    pub fn alloc_managed(&mut self, pid: Pid, handle: u8, n: u32)
        requires at_turn { IsAtTurn pid self.old }
        ensures machine { machine_of self.new ≡ after_call (Call.MmemAlloc handle n) pid.0 (machine_of self.old) }
        ensures kept { IsCarriedOut self.old self.new }
    {
        let outcome = self.memory.mmem_alloc(pid, handle, n);
        self.tell(pid, outcome);
    }

    /// Frees a handle's block.
    #[inline(never)]
    pub fn free_managed(&mut self, pid: Pid, handle: u8)
        requires at_turn { IsAtTurn pid self.old }
        ensures machine { machine_of self.new ≡ after_call (Call.MmemFree handle) pid.0 (machine_of self.old) }
        ensures kept { IsCarriedOut self.old self.new }
    {
        let outcome = self.memory.mmem_free(pid, handle);
        self.tell(pid, outcome);
    }

    /// Writes bytes into a handle's block, from offset `at` on.
    #[inline(never)]
    pub fn write_managed(&mut self, pid: Pid, handle: u8, at: u32, chunk: &Chunk)
        requires at_turn { IsAtTurn pid self.old }
        ensures machine { machine_of self.new ≡ after_call (Call.MmemWrite handle at chunk.now) pid.0 (machine_of self.old) }
        ensures kept { IsCarriedOut self.old self.new }
    {
        let outcome = self.memory.mmem_write(pid, handle, at, chunk.as_slice());
        self.tell(pid, outcome);
    }

    /// Reads `len` bytes of a handle's block, from offset `at` on.
    #[inline(never)]
    pub fn read_managed(&mut self, pid: Pid, handle: u8, at: u32, len: u8)
        requires at_turn { IsAtTurn pid self.old }
        ensures machine { machine_of self.new ≡ after_call (Call.MmemRead handle at len) pid.0 (machine_of self.old) }
        ensures kept { IsCarriedOut self.old self.new }
    {
        match self.memory.mmem_range(pid, handle, at, len) {
            Ok(bytes) => answer_bytes(&mut self.scheduler, pid, bytes),
            Err(refusal) => self.refuse(pid, refusal),
        }
    }

    /// Copies all bytes of one handle's block to the front of another one's.
    #[inline(never)]
    pub fn copy_managed(&mut self, pid: Pid, source: u8, target: u8)
        requires at_turn { IsAtTurn pid self.old }
        ensures machine { machine_of self.new ≡ after_call (Call.MmemCopy source target) pid.0 (machine_of self.old) }
        ensures kept { IsCarriedOut self.old self.new }
    {
        let outcome = self.memory.mmem_copy(pid, source, target);
        self.tell(pid, outcome);
    }

    /// Returns the number of bytes that are free for the application.
    #[inline(never)]
    pub fn count_managed(&mut self, pid: Pid)
        requires at_turn { IsAtTurn pid self.old }
        ensures machine { machine_of self.new ≡ after_call Call.MmemAvail pid.0 (machine_of self.old) }
        ensures kept { IsCarriedOut self.old self.new }
    {
        let free = self.memory.mmem_avail(pid);
        self.answer(pid, Reply::Num(free));
    }
}
