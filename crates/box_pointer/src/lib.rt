//! A box as two parts, its pointer and its allocator, which can become the box again.
//!
//! A program needs this to pass a value to code outside of Rattle, which keeps only the pointer.
//! `pigyelund_routes::table::made_table` makes a handle of it:
//!
//! ```rust
//! Ok(boxed) => Ok(BoxPointer::of(boxed)),
//! ```
#![tactic(auto)]

ghost use Rattle.std.specs.Prelude.{◌≡◌};
ghost use Rattle.std.specs.Box.Ownership.{box_owns};

use std::alloc::Allocator;
use std::marker::Model;

/// A box as its pointer and its allocator. It owns what the box owned.
///
/// A value of this type is never dropped. It becomes the box again, or its owner takes it apart and is then responsible
/// for the memory.
pub struct BoxPointer<T, A: Allocator> {
    /// The pointer to the value.
    pub at: *mut T,
    /// The allocator of the value's block.
    pub alloc: A,
    /// The value at the pointer, for contracts only.
    pub ghost value: { T },
}

impl<T, A: Allocator> Model for BoxPointer<T, A> {
    ghost also_owns = { λ parts. box_owns (A.dealloc_token parts.alloc) T.row parts.at parts.value };
}

impl<T: Drop, A: Allocator> BoxPointer<T, A> {
    /// Takes a box apart. The pointer and the allocator own the value and its memory afterwards.
    pub fn of(boxed: Box<T, A>) -> BoxPointer<T, A>
        ensures { result.value ≡ boxed.value }
    {
        let (at, alloc) = Box::into_raw_with_allocator(boxed);
        BoxPointer { at, alloc }
    }

    /// Returns the box again, with the same value.
    pub fn into_box(self) -> Box<T, A>
        ensures { result.value ≡ self.value }
    {
        let BoxPointer { at, alloc } = self;
        unsafe { Box::from_raw(alloc, at) }
    }
}
