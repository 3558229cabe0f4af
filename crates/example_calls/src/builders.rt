//! Builds resources block by block.
ghost use Rattle.std.specs.Prelude.{[], ◌∷◌, Some, IfOk};
ghost use Rattle.rpki_chain.specs.Claims.{IsBuilt};
ghost use Rattle.rpki_as_block.specs.Blocks.{as_bounds};

use rpki_resources::repository::resources::{AsBlock, AsResources, AsResourcesBuilder};
use std::alloc::{AllocError, Allocator};

/// Returns AS resources that list one block. The builder first gets inherited resources, and the block replaces them.
///
/// # Errors
///
/// [`AllocError`] if an allocation fails.
pub fn listed_in_the_end<A: Allocator + Copy>(
    alloc: A,
    block: AsBlock,
) -> Result<AsResources<A>, AllocError>
    ensures { IfOk result (IsBuilt (Some (as_bounds block ∷ []))) }
{
    let mut builder: AsResourcesBuilder<A> = AsResourcesBuilder::new(alloc);
    builder.inherit();
    builder.blocks(|blocks| blocks.push(block))?;
    builder.finalize()
}
