//! Claims along a path of issuers, each made on what remains after the issuers before it (RFC 3779, 2.3 and 3.3).
ghost use Rattle.std.specs.Prelude.{◌≡◌};
ghost use Rattle.rpki_chain.specs.Claims.{Claim, claim_by};
ghost use Rattle.rpki_chain.specs.Paths.{path_refusal_text};

use crate::choice::ResourcesChoice;
use crate::set::BlockSet;
use rpki_chain_core::block::Block;
use std::alloc::Allocator;
use std::error::Error;
use std::fmt;

/// The treatment of a claim that lists more than its issuer has.
#[derive(Clone, Copy, Debug, PartialEq, Eq)]
pub enum Overclaim {
    /// The claim is refused (RFC 6487, 7.2).
    Refuse,
    /// The claim is replaced by its intersection with the issuer's resources (RFC 8360, 4).
    Trim,
}

/// A step of a path: a claim, and its treatment if it lists more than remains after the steps before it.
#[derive(Debug, Drop)]
pub struct Step<R> {
    /// The resources that are claimed.
    pub claim: R,
    /// The treatment of the claim if it overclaims.
    pub mode: Overclaim,
}

/// The first refused step of a path. Prints the step's index and its fault.
#[derive(Debug, Drop)]
pub struct PathRefusal<F> {
    /// The index of the step, counted from 0.
    pub step: usize,
    /// Why the step is refused.
    pub fault: F,
}

/// Prints `refused at step `, the step's index, a colon, a space and the fault.
impl<F: fmt::Display> fmt::Display for PathRefusal<F> {
    ghost output = { path_refusal_text F.output };

    fn fmt<W: fmt::Write>(&self, f: &mut fmt::Formatter<W>) -> fmt::Result {
        let step = self.step;
        let fault = &self.fault;
        write!(f, "refused at step {step}: {fault}")
    }
}

impl<F: Error> Error for PathRefusal<F> {}

/// Resources that claim a set of items of one kind.
///
/// This trait is about one kind of block. `rpki_extensions::Claims` is a struct with the claims of all three kinds.
pub trait BlockClaim<T: Block, A: Allocator> {
    // The claim that the resources make.
    ghost claim: { Self → Claim };

    /// Returns the claim, with the set that it lists.
    fn claimed(&self) -> ResourcesChoice<&BlockSet<T, A>>
        ensures { claim_by (λ set. set.now) result ≡ claim self.now };
}
