//! A mote that C holds.

ghost use Rattle.std.specs.Prelude.{◌≡◌, Option, None, Some};
ghost use Rattle.std.specs.Borrow.{sem};
ghost use Rattle.std.specs.Option.{MatchOption};
ghost use Rattle.library_core.specs.declared.open_mote.OpenMote.{OpenMote as Held};
ghost use Rattle.library_core.specs.Owned.{mote_owns};

use crate::open_mote::OpenMote;
use crate::unboxed::Unboxed;
use std::alloc::Global;
use std::marker::Model;
use std::{mem, ptr};

/// What an open mote has, on the heap; or nothing: then it is closed, as it is with all bytes 0.
///
/// It has no `Drop`: code in which it goes out of scope is refused, so it must be taken apart. That what was taken out is freed, and not
/// passed to `mem::forget`, is only tested.
#[repr(C)]
pub struct Mote {
    held: *mut u8,
    is_open: bool,
    pub ghost open_mote: { Option Held },
}

impl Model for Mote {
    ghost also_owns = { λ mote. mote_owns mote.is_open mote.held mote.open_mote };
}

impl Mote {
    ghost use Rattle.library_core.specs.Lending.{LendsOpenMote};

    /// A closed one.
    fn closed() -> Mote
        ensures { result.open_mote ≡ None }
    {
        Mote {
            held: ptr::null_mut(),
            is_open: false,
        }
    }

    /// An open one.
    fn of(parts: Unboxed<OpenMote, Global>) -> Mote
        ensures { result.open_mote ≡ Some parts.value }
    {
        let Unboxed {
            pointer,
            allocator: _,
        } = parts;
        Mote {
            held: pointer as *mut u8,
            is_open: true,
        }
    }

    /// What it holds, if it is open.
    fn into_parts(self, allocator: Global) -> Option<Unboxed<OpenMote, Global>>
        ensures { MatchOption result (self.open_mote ≡ None) (λ parts. self.open_mote ≡ Some parts.value) }
    {
        let Mote { held, is_open } = self;
        if is_open {
            Some(Unboxed {
                pointer: held as *mut OpenMote,
                allocator,
            })
        } else {
            None
        }
    }

    /// What it holds, if it is open.
    pub fn open_mut(&mut self) -> Option<&mut OpenMote>
        ensures* writes_back { sem 𝓛 (LendsOpenMote self.entry result) }
        ensures value { MatchOption result (self.old.open_mote ≡ None) (λ lent. self.old.open_mote ≡ Some lent.now) }
    {
        if !self.is_open {
            return None;
        }
        Some(unsafe { &mut *(self.held as *mut OpenMote) })
    }

    /// Takes out what it holds, if it is open, and closes it.
    pub fn take(&mut self, alloc: Global) -> Option<Box<OpenMote>>
        ensures taken { MatchOption result (self.old.open_mote ≡ None) (λ taken. self.old.open_mote ≡ Some taken.value) }
        ensures closed { self.new.open_mote ≡ None }
    {
        let before = mem::replace(self, Mote::closed());
        match before.into_parts(alloc) {
            Some(parts) => Some(parts.into_box()),
            None => None,
        }
    }

    /// Opens it, where it is closed: so nothing that it held is lost.
    pub fn put(&mut self, alloc: Global, open_mote: Box<OpenMote>)
        requires closed { self.old.open_mote ≡ None }
        ensures opened { self.new.open_mote ≡ Some open_mote.value }
    {
        let before = mem::replace(self, Mote::of(Unboxed::of(open_mote)));
        match before.into_parts(alloc) {
            None => {}
            Some(_) => unreachable!(),
        }
    }
}
