//! Handles: a table in a block of its own, whose pointer the caller keeps.
//!
//! In C each handle is a pointer, `pigy_table *`. The type of a parameter says which right to the table the caller
//! passes, and the contracts of the exports do not repeat it:
//!
//! - [`TableOutput`]: an output whose old value is not read.
//! - [`TableOwner`]: the owner of a table.
//! - [`TableRef`]: a borrowed table, which nobody frees before the call returns.
ghost use Rattle.std.specs.Prelude.{◌≡◌, List, Option, Some, None, MatchOption};
ghost use Rattle.std.specs.Ptr.{null_ptr};
ghost use denote.RawPtr.{InBlock};
ghost use Rattle.roa_origin.specs.Vrps.{Vrp as RoaVrp};
ghost use Rattle.pigyelund_routes.specs.Handles.{lends_table, may_own_table, owns_table};

use box_pointer::BoxPointer;
use roa_origin::OriginTable;
use std::alloc::Global;
use std::marker::Model;

/// The target of a handle, as callers see it.
#[repr(C)]
pub struct Table {
    inside: u8,
}

/// An output that receives a handle.
///
/// The library does not read the old value of the output. If a call writes a handle into it, that handle owns a table.
#[repr(C)]
#[derive(Drop)]
pub struct TableOutput {
    /// The pointer.
    pub at: *mut Table,
    /// The VRPs of the table that it owns.
    pub ghost given: { Option (List RoaVrp) },
}

impl Model for TableOutput {
    ghost also_owns = { λ output. may_own_table output.at output.given };
}

impl TableOutput {
    /// Returns the handle of a boxed table.
    pub fn of(parts: BoxPointer<OriginTable<Global>, Global>) -> TableOutput
        ensures { (result.given ≡ Some parts.value) × InBlock result.at }
    {
        let BoxPointer { at, alloc: _ } = parts;
        TableOutput {
            at: at as *mut Table,
        }
    }

    /// Returns the null handle, for a call that returns no table.
    pub fn null() -> TableOutput
        ensures { (result.given ≡ None) × (result.at ≡ null_ptr) }
    {
        TableOutput {
            at: std::ptr::null_mut(),
        }
    }
}

/// A handle that a caller passes so that the table is freed, or null.
#[repr(C)]
pub struct TableOwner {
    /// The pointer.
    pub at: *mut Table,
    /// The VRPs of the table.
    pub ghost vrps: { List RoaVrp },
}

impl Model for TableOwner {
    ghost also_owns = { λ owner. owns_table owner.at owner.vrps };
}

impl TableOwner {
    /// Returns the boxed table, or `None` if the handle is null.
    pub fn into_parts(self, alloc: Global) -> Option<BoxPointer<OriginTable<Global>, Global>>
        ensures { MatchOption result (self.at ≡ null_ptr) (λ parts. parts.value ≡ self.vrps) }
    {
        let TableOwner { at } = self;
        let at = at as *mut OriginTable<Global>;
        if at.is_null() {
            return None;
        }
        Some(BoxPointer { at, alloc })
    }
}

/// A handle of a table that a call reads, or null. A call that reads a table doesn't write to it.
///
/// The proof is about one thread. It doesn't say that several threads may read a table at the same time. A test of the
/// Python module lets four threads do so.
#[repr(C)]
#[derive(Drop)]
pub struct TableRef {
    /// The pointer.
    pub at: *const Table,
    /// The VRPs of the table, in its order.
    pub ghost vrps: { List RoaVrp },
}

impl Model for TableRef {
    ghost also_owns = { λ lent. lends_table lent.at lent.vrps };
}

impl TableRef {
    /// Returns the table, or `None` if the handle is null.
    pub fn table<'a>(self) -> Option<&'a OriginTable<Global>>
        ensures { MatchOption result (self.at ≡ null_ptr)
            (λ table. (table.now ≡ self.vrps) × InBlock self.at) }
    {
        let TableRef { at } = self;
        let at = at as *const OriginTable<Global>;
        if at.is_null() {
            return None;
        }
        unsafe { Some(&*at) }
    }

    /// Returns the table of a handle that stays, or `None` if the handle is null.
    pub fn lent(&self) -> Option<&OriginTable<Global>>
        ensures { MatchOption result (self.now.at ≡ null_ptr)
            (λ table. (table.now ≡ self.now.vrps) × InBlock self.now.at) }
    {
        let at = self.at as *const OriginTable<Global>;
        if at.is_null() {
            return None;
        }
        unsafe { Some(&*at) }
    }
}
