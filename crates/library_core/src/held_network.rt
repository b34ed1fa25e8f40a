//! A network that C holds.

ghost use Rattle.std.specs.Prelude.{◌≡◌, Option, None, Some};
ghost use Rattle.std.specs.Borrow.{sem};
ghost use Rattle.std.specs.Option.{MatchOption};
ghost use Rattle.library_core.specs.declared.open_network.OpenNetwork.{OpenNetwork as Held};
ghost use Rattle.library_core.specs.Owned.{network_owns};

use crate::open_network::OpenNetwork;
use crate::unboxed::Unboxed;
use std::alloc::Global;
use std::marker::Model;
use std::{mem, ptr};

/// What an open network has, on the heap; or nothing: then it is closed, as it is with all bytes 0.
///
/// It has no `Drop`: code in which it goes out of scope is refused, so it must be taken apart. That what was taken out is freed, and not
/// passed to `mem::forget`, is only tested.
#[repr(C)]
pub struct HeldNetwork {
    held: *mut u8,
    is_open: bool,
    pub ghost open_network: { Option Held },
}

impl Model for HeldNetwork {
    ghost also_owns = { λ network. network_owns network.is_open network.held network.open_network };
}

impl HeldNetwork {
    ghost use Rattle.library_core.specs.Lending.{LendsOpenNetwork};

    /// A closed one.
    fn closed() -> HeldNetwork
        ensures { result.open_network ≡ None }
    {
        HeldNetwork {
            held: ptr::null_mut(),
            is_open: false,
        }
    }

    /// An open one.
    fn of(parts: Unboxed<OpenNetwork, Global>) -> HeldNetwork
        ensures { result.open_network ≡ Some parts.value }
    {
        let Unboxed {
            pointer,
            allocator: _,
        } = parts;
        HeldNetwork {
            held: pointer as *mut u8,
            is_open: true,
        }
    }

    /// What it holds, if it is open.
    fn into_parts(self, allocator: Global) -> Option<Unboxed<OpenNetwork, Global>>
        ensures { MatchOption result (self.open_network ≡ None) (λ parts. self.open_network ≡ Some parts.value) }
    {
        let HeldNetwork { held, is_open } = self;
        if is_open {
            Some(Unboxed {
                pointer: held as *mut OpenNetwork,
                allocator,
            })
        } else {
            None
        }
    }

    /// What it holds, if it is open.
    pub fn open_mut(&mut self) -> Option<&mut OpenNetwork>
        ensures* writes_back { sem 𝓛 (LendsOpenNetwork self.entry result) }
        ensures value { MatchOption result (self.old.open_network ≡ None) (λ lent. self.old.open_network ≡ Some lent.now) }
    {
        if !self.is_open {
            return None;
        }
        Some(unsafe { &mut *(self.held as *mut OpenNetwork) })
    }

    /// Takes out what it holds, if it is open, and closes it.
    pub fn take(&mut self, alloc: Global) -> Option<Box<OpenNetwork>>
        ensures taken { MatchOption result (self.old.open_network ≡ None) (λ taken. self.old.open_network ≡ Some taken.value) }
        ensures closed { self.new.open_network ≡ None }
    {
        let before = mem::replace(self, HeldNetwork::closed());
        match before.into_parts(alloc) {
            Some(parts) => Some(parts.into_box()),
            None => None,
        }
    }

    /// Opens it, where it is closed: so nothing that it held is lost.
    pub fn put(&mut self, alloc: Global, open_network: Box<OpenNetwork>)
        requires closed { self.old.open_network ≡ None }
        ensures opened { self.new.open_network ≡ Some open_network.value }
    {
        let before = mem::replace(self, HeldNetwork::of(Unboxed::of(open_network)));
        match before.into_parts(alloc) {
            None => {}
            Some(_) => unreachable!(),
        }
    }
}
