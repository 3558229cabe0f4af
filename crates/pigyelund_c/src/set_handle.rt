//! Handles of sets of resources: a set in a block of its own, whose pointer the caller keeps.
//!
//! In C each handle is a pointer, `pigy_resources *`. The type of a parameter says which right to the set the caller
//! passes, as for tables (`pigyelund_routes::table_handle`):
//!
//! - [`SetOutput`]: an output whose old value is not read.
//! - [`SetOwner`]: the owner of a set.
//! - [`SetRef`]: a borrowed set, which nobody frees before the call returns.
ghost use Rattle.std.specs.Prelude.{◌≡◌, Option, Some, None, MatchOption};
ghost use Rattle.std.specs.Ptr.{null_ptr};
ghost use denote.RawPtr.{InBlock};
ghost use Rattle.rpki_resources.specs.Triples.{Triple};
ghost use Rattle.pigyelund_c.specs.Handles.{lends_set, may_own_set, owns_set};

use box_pointer::BoxPointer;
use rpki_resources::repository::resources::ResourceSet;
use std::alloc::Global;
use std::marker::Model;

/// The target of a handle, as callers see it.
#[repr(C)]
pub struct Resources {
    inside: u8,
}

/// An output that receives a handle.
///
/// The library does not read the old value of the output. If a call writes a handle into it, that handle owns a set.
#[repr(C)]
#[derive(Drop)]
pub struct SetOutput {
    /// The pointer.
    pub at: *mut Resources,
    /// The set that it owns.
    pub ghost given: { Option Triple },
}

impl Model for SetOutput {
    ghost also_owns = { λ output. may_own_set output.at output.given };
}

impl SetOutput {
    /// Returns the handle of a boxed set.
    pub fn of(parts: BoxPointer<ResourceSet, Global>) -> SetOutput
        ensures { (result.given ≡ Some parts.value) × InBlock result.at }
    {
        let BoxPointer { at, alloc: _ } = parts;
        SetOutput {
            at: at as *mut Resources,
        }
    }

    /// Returns the null handle, for a call that returns no set.
    pub fn null() -> SetOutput
        ensures { (result.given ≡ None) × (result.at ≡ null_ptr) }
    {
        SetOutput {
            at: std::ptr::null_mut(),
        }
    }
}

/// A handle that a caller passes so that the set is freed, or null.
#[repr(C)]
pub struct SetOwner {
    /// The pointer.
    pub at: *mut Resources,
    /// The set.
    pub ghost set: { Triple },
}

impl Model for SetOwner {
    ghost also_owns = { λ owner. owns_set owner.at owner.set };
}

impl SetOwner {
    /// Returns the boxed set, or `None` if the handle is null.
    pub fn into_parts(self, alloc: Global) -> Option<BoxPointer<ResourceSet, Global>>
        ensures { MatchOption result (self.at ≡ null_ptr) (λ parts. parts.value ≡ self.set) }
    {
        let SetOwner { at } = self;
        let at = at as *mut ResourceSet;
        if at.is_null() {
            return None;
        }
        Some(BoxPointer { at, alloc })
    }
}

/// A handle of a set that a call reads, or null. A call that reads a set doesn't write to it.
///
/// The proof is about one thread. It doesn't say that several threads may read a set at the same time.
#[repr(C)]
#[derive(Drop)]
pub struct SetRef {
    /// The pointer.
    pub at: *const Resources,
    /// The set.
    pub ghost set: { Triple },
}

impl Model for SetRef {
    ghost also_owns = { λ lent. lends_set lent.at lent.set };
}

impl SetRef {
    /// Returns the set, or `None` if the handle is null.
    pub fn set<'a>(self) -> Option<&'a ResourceSet>
        ensures { MatchOption result (self.at ≡ null_ptr)
            (λ set. (set.now ≡ self.set) × InBlock self.at) }
    {
        let SetRef { at } = self;
        let at = at as *const ResourceSet;
        if at.is_null() {
            return None;
        }
        unsafe { Some(&*at) }
    }
}
