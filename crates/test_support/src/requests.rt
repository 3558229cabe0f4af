// The counts of the requests for memory and of their octets, and the plan.
ghost use Rattle.std.specs.Prelude.{◌≡◌};
ghost use Rattle.test_support.specs.Plans.{IsSomeAnswer, IsSomeRefusedCount};

use crate::plan::Plan;
use std::cell::Cell;

#[derive(Drop)]
pub(crate) struct Requests {
    plan: Plan,
    asked: Cell<u64>,
    octets: Cell<u64>,
}

impl Requests {
    pub(crate) fn new(plan: Plan) -> Requests
        ensures { result.plan ≡ plan }
    {
        Requests {
            plan,
            asked: Cell::new(0),
            octets: Cell::new(0),
        }
    }

    pub(crate) fn plan(&self) -> Plan
        ensures { result ≡ self.now.plan }
    {
        self.plan
    }

    pub(crate) fn asked(&self) -> u64 {
        self.asked.get()
    }

    pub(crate) fn octets(&self) -> u64 {
        self.octets.get()
    }

    pub(crate) fn refused(&self) -> u64
        ensures { IsSomeRefusedCount self.now.plan result }
    {
        self.plan.refused_among(self.asked())
    }

    // Counts a request of `size` octets, and returns whether it is refused.
    pub(crate) fn next_is_refused(&self, size: usize) -> bool
        ensures { IsSomeAnswer self.now.plan result }
    {
        let number = self.asked.get();
        self.asked.set(number.saturating_add(1));
        self.octets
            .set(self.octets.get().saturating_add(size as u64));
        self.plan.refuses(number)
    }
}
