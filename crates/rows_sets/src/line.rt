//! Answers to lines, by their commands.
use crate::question::Question;
use crate::{as_sets, ip_sets, long};
use rows_chains::{chains, small_sets};
use rpki_ip::family::AddressFamily;
use std::alloc::{AllocError, Allocator};
use test_support::print::cut_at;
use test_support::refusals::Call;

/// A line of the input.
#[derive(Drop)]
pub struct Line<'a>(pub &'a str);

impl Call for Line<'_> {
    fn text(&self) -> &str {
        self.0
    }

    /// Answers the line. A line with another command goes unchanged to the library that answers the lines of `respath`.
    fn answer<A: Allocator + Copy>(&self, alloc: A) -> Result<String<A>, AllocError> {
        let (command, rest) = cut_at(self.0, ' ');
        let (kind, operands) = cut_at(rest, ' ');
        match command {
            "small" => small_sets::answer(alloc, kind, operands),
            "chain" => chains::answer(alloc, kind, operands),
            "pair" => chains::pair_answer(alloc, kind, operands),
            "long" => long::answer(alloc, kind, operands),
            _ => match Question::named(command) {
                Some(question) => set_answer(alloc, question, kind, operands),
                None => respath_lines::answer(alloc, self.0.as_bytes()),
            },
        }
    }
}

/// Answers a question about sets of a kind.
fn set_answer<A: Allocator + Copy>(
    alloc: A,
    question: Question,
    kind: &str,
    operands: &str,
) -> Result<String<A>, AllocError> {
    match kind {
        "as" => as_sets::answer(alloc, question, operands),
        "v4" => ip_sets::answer(alloc, AddressFamily::Ipv4, question, operands),
        "v6" => ip_sets::answer(alloc, AddressFamily::Ipv6, question, operands),
        _ => String::from_str(alloc, "no such kind"),
    }
}
