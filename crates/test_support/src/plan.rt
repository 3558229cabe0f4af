// The selection of requests for memory to refuse.
ghost use Rattle.std.specs.Prelude.{◌≡◌};
ghost use Rattle.test_support.specs.Plans.{refuses, refused_among};

/// The requests for memory that are refused. The first request has the number 0.
#[derive(Clone, Copy, Debug, PartialEq, Eq)]
pub enum Plan {
    /// Refuses no request.
    RefuseNone,
    /// Refuses the request with this number, and no other.
    RefuseOnly(u64),
    /// Refuses every request.
    RefuseAll,
}

impl Plan {
    /// Returns whether the request with this number is refused.
    pub fn refuses(self, number: u64) -> bool
        ensures { result ≡ refuses self number }
    {
        match self {
            Plan::RefuseNone => false,
            Plan::RefuseOnly(refused) => number == refused,
            Plan::RefuseAll => true,
        }
    }

    /// Returns the number of refusals among the first `asked` requests.
    #[tactic(auto, using(crate::proofs::RefusalCounts::among_none, crate::proofs::RefusalCounts::among_only, crate::proofs::RefusalCounts::among_all))]
    pub fn refused_among(self, asked: u64) -> u64
        ensures { result ≡ refused_among self asked }
    {
        match self {
            Plan::RefuseNone => 0,
            Plan::RefuseOnly(refused) => u64::from(refused < asked),
            Plan::RefuseAll => asked,
        }
    }
}
