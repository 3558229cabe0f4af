//! Answers of a table of VRPs to the line of a route.
use crate::elements;
use lines_engine::answers::Answers;
use origins_lines::Routes;
use origins_lines::explanation::Form;
use roa_origin::{OriginTable, Vrp};
use std::alloc::{AllocError, Allocator};
use test_support::print::cut_at;

/// Answers `route PREFIX[-MAX] AS | .. ; LINE`. If the command is `why`, the answer has the VRPs that explain it.
pub fn answer_to_line<A: Allocator + Copy>(
    alloc: A,
    operands: &str,
    why: bool,
) -> Result<String<A>, AllocError> {
    let (list, line) = cut_at(operands, ';');
    match elements::read::<Vrp, A>(alloc, list)? {
        Some(vrps) => by_vrps(alloc, &vrps, line, why),
        None => String::from_str(alloc, "no such VRP"),
    }
}

fn by_vrps<A: Allocator + Copy>(
    alloc: A,
    vrps: &[Vrp],
    line: &str,
    why: bool,
) -> Result<String<A>, AllocError> {
    let table = OriginTable::new(alloc, vrps)?;
    let routes = Routes {
        table: &table,
        form: Form::Words,
        why,
    };
    by_routes(alloc, &routes, line)
}

fn by_routes<A: Allocator + Copy>(
    alloc: A,
    routes: &Routes<'_, A>,
    line: &str,
) -> Result<String<A>, AllocError> {
    let mut text = String::new(alloc);
    routes.answer(alloc, line.as_bytes(), &mut text)?;
    Ok(text)
}
