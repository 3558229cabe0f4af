//! Builders of resources: inherited, or listed block by block.
ghost use Rattle.std.specs.Prelude.{◌≡◌, ℕ, List, [], Some, None, IfOk};
ghost use Rattle.std.specs.Fn.{FnOnceReturnsAtMut, FnOnceTakesAtMut};
ghost use Rattle.rpki_chain.specs.Claims.{Claim, IsBuilt, blocks_so_far};
ghost use Rattle.rpki_chain.specs.declared.choice.ResourcesChoice.TheVariants.{Inherit};

use std::alloc::{AllocError, Allocator};
use std::fmt;
use std::marker::Model;

/// Collects blocks of one kind, in any order, for resources that list them.
pub trait CollectBlocks: Drop {
    /// The type of the allocator.
    type Memory: Allocator + Copy;

    /// The type of the resources that are built.
    type Resources;

    // The least and the greatest numbers of the blocks, in the order in which they were added.
    ghost blocks: { Self → List (ℕ × ℕ) };

    // The claim of resources.
    ghost claim: { Self.Resources → Claim };

    /// Returns a collector without blocks.
    fn start(alloc: Self::Memory) -> Self
        ensures { blocks result ≡ [] };

    /// Returns the resources that list the numbers of the blocks, or missing resources if no block was collected.
    ///
    /// # Errors
    ///
    /// [`AllocError`]: out of memory.
    fn finish(self) -> Result<Self::Resources, AllocError>
        ensures { IfOk result (λ resources. IsBuilt (Some (blocks self)) (claim resources)) };

    /// Returns inherited resources.
    fn inherited() -> Self::Resources
        ensures { claim result ≡ Inherit };
}

/// A builder of resources: inherited ones, or a list, which begins without blocks.
///
/// The model of a builder is the list of the blocks' least and greatest numbers, in the order in which they were added.
/// It is None if the resources are inherited.
#[derive(Drop)]
pub struct ResourcesBuilder<B: CollectBlocks> {
    alloc: B::Memory,
    /// The list, or None if the resources are inherited.
    listed: Option<B>,
}

impl<B: CollectBlocks> Model for ResourcesBuilder<B> {
    ghost use Rattle.std.specs.Prelude.{ℕ, List, Option, option_map};

    ghost Value = { Option (List (ℕ × ℕ)) };

    ghost view = { λ b. option_map B.blocks b.listed };
}

impl<B: CollectBlocks> ResourcesBuilder<B> {
    /// Returns a builder of a list without blocks. It keeps `alloc` for its later allocations.
    pub fn new(alloc: B::Memory) -> Self
        ensures { result ≡ Some [] }
    {
        ResourcesBuilder {
            alloc,
            listed: Some(B::start(alloc)),
        }
    }

    /// Makes the resources inherited, and drops the blocks that were listed.
    pub fn inherit(&mut self)
        ensures { self.new ≡ None }
    {
        self.listed = None;
    }

    /// Calls `build` with the list so far, or with a list without blocks if the resources were inherited.
    ///
    /// Afterwards the resources are listed, with the blocks that `build` left in the list. This holds even if `build`
    /// fails.
    ///
    /// # Preconditions
    ///
    /// `build` can be called with a list of the blocks so far.
    ///
    /// # Errors
    ///
    /// The error of `build`.
    pub fn blocks<F: FnOnce(&mut B) -> Result<(), AllocError>>(
        &mut self,
        build: F,
    ) -> Result<(), AllocError>
        requires { (handed : B) → B.blocks handed ≡ blocks_so_far self.old
            → FnOnceTakesAtMut F.FnOnce build handed }
        ensures { (handed left : B) × (B.blocks handed ≡ blocks_so_far self.old)
            × FnOnceReturnsAtMut F.FnOnce build handed result left
            × (self.new ≡ Some (B.blocks left)) }
    {
        let mut listed = match self.listed.take() {
            Some(listed) => listed,
            None => B::start(self.alloc),
        };
        let answer = build(&mut listed);
        self.listed = Some(listed);
        answer
    }

    /// Returns the resources: inherited ones, or those of the listed numbers. They are missing if no number is listed.
    ///
    /// # Errors
    ///
    /// [`AllocError`]: out of memory.
    pub fn finalize(self) -> Result<B::Resources, AllocError>
        ensures { IfOk result (λ resources. IsBuilt self (B.claim resources)) }
    {
        match self.listed {
            Some(listed) => listed.finish(),
            None => Ok(B::inherited()),
        }
    }
}

impl<B: CollectBlocks> fmt::Debug for ResourcesBuilder<B> {
    fn fmt<W: fmt::Write>(&self, f: &mut fmt::Formatter<W>) -> fmt::Result {
        f.debug_struct("ResourcesBuilder").finish_non_exhaustive()
    }
}
