//! What an open mote has, and how one is opened.

ghost use Rattle.std.specs.Prelude.{◌≡◌, ◌↔◌, None, false, true, IfErr, IfOk, IsErrOf};
ghost use Rattle.kernel_core.specs.Machine.{booted, is_bootable};
ghost use Rattle.library_core.specs.Steps.{IsOpened};

use kernel_core::awaiting_kernel::AwaitingKernel;
use mote_session::session::Session;
use mote_session::{BootFault, Config};
use mote_text::output_buffer::{MOST_OF_LINE, TextBuffer};
use mote_types::event::MOST_APPLICATIONS;
use node_memory::Sizes;
use std::alloc::{AllocError, Global};

/// Room for a line of a transcript.
pub type LineRoom = TextBuffer<MOST_OF_LINE>;

/// A session, and room for a line of its transcript.
#[derive(Drop)]
pub struct OpenMote {
    pub session: Session,
    /// None in a quiet mote.
    pub line: Option<Box<LineRoom>>,
}

/// Whether a mote boots with this configuration.
fn can_boot(config: &Config) -> bool
    ensures { result ≡ is_bootable config.now }
{
    let sizes = Sizes {
        mmem: config.mmem,
        heap: config.heap,
        header: config.header,
        quota: config.quota,
    };
    sizes.are_allowed(config.apps) && config.apps <= MOST_APPLICATIONS
}

// Those that are out of line give back at once what they take of the stack.

/// Room for a line, on the heap.
#[inline(never)]
fn line_on_heap(alloc: Global) -> Result<Box<LineRoom>, AllocError> {
    match Box::new(alloc, LineRoom::new()) {
        Ok(line) => Ok(line),
        Err(_) => Err(AllocError),
    }
}

/// The same, where the mote isn't quiet.
fn room_for_line(alloc: Global, is_quiet: bool) -> Result<Option<Box<LineRoom>>, AllocError> {
    if is_quiet {
        return Ok(None);
    }
    match line_on_heap(alloc) {
        Ok(line) => Ok(Some(line)),
        Err(refused) => Err(refused),
    }
}

/// Puts a session over a kernel that has just booted on the heap, with this room for a line.
#[inline(never)]
fn held(
    alloc: Global,
    config: Config,
    kernel: AwaitingKernel,
    line: Option<Box<LineRoom>>,
) -> Result<Box<OpenMote>, BootFault>
    requires machine { kernel.mote.machine ≡ booted config }
    requires inputs { kernel.mote.inputs ≡ 0 }
    requires turn { kernel.turn ≡ None }
    requires bootable { is_bootable config ≡ true }
    ensures opened { IfOk result (λ mote. IsOpened config mote.value.session) }
    ensures fault { IfErr result (λ fault. fault ≡ BootFault.Memory) }
{
    let session = Session::over(kernel, config);
    match Box::new(alloc, OpenMote { session, line }) {
        Ok(open_mote) => Ok(open_mote),
        Err(_) => Err(BootFault::Memory),
    }
}

/// A mote at boot. A quiet one has no room for a line.
///
/// # Errors
///
/// `BadSizes` exactly if no mote boots with this configuration, otherwise `Memory`.
pub fn boot(alloc: Global, config: Config, is_quiet: bool) -> Result<Box<OpenMote>, BootFault>
    ensures opened { IfOk result (λ mote. IsOpened config mote.value.session) }
    ensures bad_sizes { IsErrOf result BootFault.BadSizes ↔ (is_bootable config ≡ false) }
{
    if !can_boot(&config) {
        return Err(BootFault::BadSizes);
    }
    let Ok(line) = room_for_line(alloc, is_quiet) else {
        return Err(BootFault::Memory);
    };
    match AwaitingKernel::boot(alloc, config) {
        Ok(kernel) => held(alloc, config, kernel, line),
        Err(fault) => Err(fault),
    }
}
