//! The memory that a call requests.
use crate::Refusing;
use std::alloc::{AllocError, Global};

/// The requests to an allocator before a call.
#[derive(Clone, Copy)]
pub struct Asked {
    requests: u64,
    octets: u64,
}

impl Asked {
    /// Returns the requests so far.
    pub fn of(counting: &Refusing) -> Asked {
        Asked {
            requests: counting.asked(),
            octets: counting.octets(),
        }
    }

    /// Prints the number of requests since then, and the number of octets that they asked for.
    pub fn since(self, alloc: Global, counting: &Refusing) -> Result<String, AllocError> {
        let requests = counting.asked().saturating_sub(self.requests);
        let octets = counting.octets().saturating_sub(self.octets);
        format!(in alloc; "requests {requests}, octets {octets}")
    }

    /// Does the same, or returns the error of the call that has ended since then.
    pub fn since_result<T: Drop>(
        self,
        alloc: Global,
        counting: &Refusing,
        made: Result<T, AllocError>,
    ) -> Result<String, AllocError> {
        match made {
            Ok(_) => self.since(alloc, counting),
            Err(error) => Err(error),
        }
    }
}
