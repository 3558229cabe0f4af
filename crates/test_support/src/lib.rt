//! Code that tests and the programs `rows_*` share: an allocator, checks of values, and answers to lines.
//!
//! The allocator [`Refusing`] passes requests for memory on to another one, and refuses those that its plan selects.
//!
//! [`refuse_in_turn`] runs something with request 0 refused, then request 1, and so on, until a run meets no refusal.
//! It checks how each run ended, as [`refusals::answer`] does for a line:
//!
//! ```rust
//! let refused = refuse_in_turn(alloc, limit(line), |refusing: &Refusing| {
//!     outcome(refusing, line, text)
//! });
//! ```
//!
//! A test of one plan makes a [`Refusing`] around its allocator, and passes `&refusing` on. A `&` to an allocator is an
//! allocator too, and is `Copy`.
#![tactic(auto)]

ghost use Rattle.std.specs.Prelude.{◌≡◌, IsTrue};
ghost use Rattle.test_support.specs.Plans.{inner_of, plan_of, IsSomeRefusedCount, RefusesSome};

use std::alloc::{AllocError, Allocator, Global};

pub mod asked;
mod in_turn;
pub mod names;
mod plan;
pub mod print;
pub mod refusals;
mod requests;
pub mod unchanged;
mod value_checks;

pub use in_turn::{Outcome, refuse_in_turn};
pub use plan::Plan;
use requests::Requests;
pub use value_checks::{all_print, hash_of, holds_where_refused, prints, shows};

/// An allocator that refuses the requests that its plan selects, and passes the others on.
///
/// A request is a call for a new block. Requests are counted from 0 in their order in time. Each counts, whether it is
/// refused, granted, or fails in the inner allocator. A collection that grows or shrinks makes one request, for its new
/// block. A deallocation is not a request.
///
/// A refused request returns `AllocError`, and changes nothing except the counts. These stay at `u64::MAX` once they
/// reach it.
#[derive(Drop)]
pub struct Refusing<A: Allocator = Global> {
    inner: A,
    requests: Requests,
}

impl<A: Allocator> Refusing<A> {
    /// Returns an allocator with no requests yet, which passes requests on to `inner`.
    pub fn new(inner: A, plan: Plan) -> Refusing<A>
        ensures inner { inner_of result ≡ inner }
        ensures plan { plan_of result ≡ plan }
    {
        Refusing {
            inner,
            requests: Requests::new(plan),
        }
    }

    /// Returns the plan that selects the refused requests.
    pub fn plan(&self) -> Plan
        ensures { result ≡ plan_of self.now }
    {
        self.requests.plan()
    }

    /// Returns the number of requests so far, with the refused ones.
    // No clause can state the count, because no clause sees the contents of a cell.
    pub fn asked(&self) -> u64 {
        self.requests.asked()
    }

    /// Returns the number of octets that all requests asked for, with the refused ones.
    // No clause can state it, as for `asked`.
    pub fn octets(&self) -> u64 {
        self.requests.octets()
    }

    /// Returns the number of requests so far that were refused.
    pub fn refused(&self) -> u64
        ensures { IsSomeRefusedCount (plan_of self.now) result }
    {
        self.requests.refused()
    }

    /// Returns whether some request so far was refused. A run after which this is false met no refusal.
    #[tactic(auto, using(crate::proofs::RefusalCounts::refuses_some))]
    pub fn has_refused(&self) -> bool
        ensures { IsTrue result → RefusesSome (plan_of self.now) }
    {
        self.refused() > 0
    }
}

unsafe impl<A: Allocator> Allocator for Refusing<A> {
    ghost dealloc_token = { λ heap ty ptr. A.dealloc_token heap.inner ty ptr };

    fn allocate(&self, size: usize, align: usize) -> Result<*mut u8, AllocError> {
        if self.requests.next_is_refused(size) {
            return Err(AllocError);
        }
        self.inner.allocate(size, align)
    }

    unsafe fn deallocate(&self, ptr: *mut u8, size: usize, align: usize) {
        self.inner.deallocate(ptr, size, align);
    }
}
