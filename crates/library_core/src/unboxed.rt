//! A box taken apart into its pointer and its allocator, so that the pointer can be kept where no box can.

ghost use Rattle.std.specs.Prelude.{◌≡◌};
ghost use Rattle.std_alloc.specs.Box.Ownership.{box_owns};

use std::alloc::Allocator;
use std::marker::Model;

/// A box in two parts. It owns what the box owned, and has no `Drop`: whoever lets it go without making the box again is refused.
pub struct Unboxed<T, A: Allocator> {
    pub pointer: *mut T,
    pub allocator: A,
    pub ghost value: { T },
}

impl<T, A: Allocator> Model for Unboxed<T, A> {
    ghost also_owns = { λ parts. box_owns (A.dealloc_token parts.allocator) T.row parts.pointer parts.value };
}

impl<T, A: Allocator> Unboxed<T, A> {
    /// Takes a box apart.
    pub fn of(whole: Box<T, A>) -> Unboxed<T, A>
    where
        T: Drop,
        ensures { result.value ≡ whole.value }
    {
        let (pointer, allocator) = Box::into_raw_with_allocator(whole);
        Unboxed { pointer, allocator }
    }

    /// Makes the box again.
    pub fn into_box(self) -> Box<T, A>
        ensures { result.value ≡ self.value }
    {
        let Unboxed { pointer, allocator } = self;
        unsafe { Box::from_raw(allocator, pointer) }
    }
}
