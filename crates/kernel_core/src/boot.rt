//! What a kernel is made of at boot.

ghost use Rattle.std.specs.Prelude.{◌≡◌, ◌≤◌, ◌+◌, ◌↔◌, false, IfOk, IsErrOf};
ghost use Rattle.device_core.specs.SerialLine.{quiet_line};
ghost use Rattle.node_memory.specs.Memory.{fresh_memory};
ghost use Rattle.node_memory.specs.Code.Placed.{last_owner};
ghost use Rattle.node_memory.specs.Sizes.{are_sizes};
ghost use Rattle.process_core.specs.Code.SchedulerView.{awaiting_nothing, kept_at_boot};
ghost use Rattle.process_core.specs.Scheduler.{at_boot as scheduler_at_boot};
ghost use Rattle.timer_core.specs.Code.NumberedTimers.{at_boot as timers_at_boot};
ghost use Rattle.kernel_core.specs.Code.AtBoot.{AreAtBoot, IsBooted};
ghost use Rattle.kernel_core.specs.Machine.{is_bootable, sizes_of};

use crate::config::Config;
use crate::kernel_fields::KernelFields;
use crate::pending_entries::PendingEntries;
use device_core::packet_queue::PacketQueue;
use device_core::serial_line::SerialLine;
use mote_types::event::MOST_APPLICATIONS;
use mote_types::fault::BootFault;
use node_memory::NodeMemory;
use process_core::scheduler::Scheduler;
use std::alloc::{AllocError, Global};
use timer_core::timers::Timers;

/// The large tables of a kernel. They are on the heap: who makes a kernel moves only its other parts over the stack.
#[derive(Drop)]
pub struct Tables {
    pub memory: Box<NodeMemory>,
    pub timers: Box<Timers>,
}

// Each of these two is out of line, so that the room on the stack that its table takes while it is made is given back at once.

/// The memory of a mote at boot.
///
/// # Errors
/// As `NodeMemory::new`, and `Memory` where it has no room on the heap.
#[inline(never)]
fn memory_on_heap(alloc: Global, config: Config) -> Result<Box<NodeMemory>, BootFault>
    requires { config.apps ≤ 16 }
    ensures fresh { IfOk result (λ memory. memory.value.contents ≡ fresh_memory (sizes_of config)) }
    ensures owners { IfOk result (λ memory. 3 + config.apps ≤ last_owner memory.value) }
    ensures bad_sizes { IsErrOf result BootFault.BadSizes ↔ (are_sizes (sizes_of config) config.apps ≡ false) }
{
    // No `?`: it would clear and copy the room of all memory's tables three times more.
    match NodeMemory::new(alloc, config.sizes(), config.apps) {
        Ok(memory) => match Box::new(alloc, memory) {
            Ok(memory) => Ok(memory),
            Err(_) => Err(BootFault::Memory),
        },
        Err(fault) => Err(fault),
    }
}

/// The timers of a mote at boot.
#[inline(never)]
fn timers_on_heap(alloc: Global) -> Result<Box<Timers>, AllocError>
    ensures { IfOk result (λ timers. timers.value ≡ timers_at_boot) }
{
    match Box::new(alloc, Timers::new()) {
        Ok(timers) => Ok(timers),
        Err(_) => Err(AllocError),
    }
}

/// The tables of a mote at boot.
///
/// # Errors
/// As `Kernel::boot`.
pub fn tables_at_boot(alloc: Global, config: Config) -> Result<Tables, BootFault>
    ensures fresh { IfOk result (λ tables. AreAtBoot config tables) }
    ensures bad_sizes { IsErrOf result BootFault.BadSizes ↔ (is_bootable config ≡ false) }
{
    if config.apps > MOST_APPLICATIONS {
        return Err(BootFault::BadSizes);
    }
    let memory = match memory_on_heap(alloc, config) {
        Ok(memory) => memory,
        Err(fault) => return Err(fault),
    };
    let Ok(timers) = timers_on_heap(alloc) else {
        return Err(BootFault::Memory);
    };
    Ok(Tables { memory, timers })
}

impl KernelFields {
    /// The fields at boot, of the parts that have memory of their own.
    pub fn at_boot(
        config: Config,
        tables: Tables,
        scheduler: Scheduler,
        serial: SerialLine,
    ) -> KernelFields
        requires tables { AreAtBoot config tables }
        requires scheduler { scheduler ≡ awaiting_nothing (scheduler_at_boot config.apps) kept_at_boot }
        requires serial { serial ≡ quiet_line }
        ensures { IsBooted config result }
    {
        let Tables { memory, timers } = tables;
        KernelFields {
            clock: 0,
            work: 0,
            halted: false,
            inputs: 0,
            applications: config.apps,
            pending: PendingEntries::none(),
            scheduler,
            timers,
            memory,
            serial,
            serial_waits: false,
            packets: PacketQueue::new(),
        }
    }
}
