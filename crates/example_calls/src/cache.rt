//! The prefixes of a table that cover a route.
ghost use Rattle.std.specs.Prelude.{IfOk};
ghost use Rattle.rpki_prefix.specs.Values.{CoversPrefix};
ghost use Rattle.roa_origin.specs.Coverings.{AreThose};

use rpki_resources::resources::addr::Prefix;
use std::alloc::{AllocError, Allocator};

/// Returns the prefixes of `table` that cover `route`, in the order of the table. A repeated prefix is repeated.
///
/// # Errors
///
/// [`AllocError`] if an allocation fails.
pub fn covering<A: Allocator>(
    alloc: A,
    table: &[Prefix],
    route: Prefix,
) -> Result<Vec<Prefix, A>, AllocError>
    ensures { IfOk result (λ found.
        AreThose (λ p. CoversPrefix p route) table.now found.items) }
{
    let mut found = Vec::new(alloc);
    for prefix in table {
        if prefix.covers(route) {
            found.push(*prefix)?;
        }
    }
    Ok(found)
}
