//! Answers to lines, by their commands.
use crate::{
    certificates, claims, long, outside, route_lines, routes, sent, slurm, triples, unexpired, vrps,
};
use std::alloc::{AllocError, Allocator};
use test_support::print::cut_at;
use test_support::refusals::Call;

/// A line of the input.
#[derive(Drop)]
pub struct Line<'a>(pub &'a str);

impl Call for Line<'_> {
    fn text(&self) -> &str {
        self.0
    }

    fn answer<A: Allocator + Copy>(&self, alloc: A) -> Result<String<A>, AllocError> {
        let (command, rest) = cut_at(self.0, ' ');
        let (kind, operands) = cut_at(rest, ' ');
        match command {
            "claim" => claims::answer(alloc, kind, operands),
            "triple" => triples::answer(alloc, kind, operands),
            "set" => triples::set(alloc, rest),
            "diff" => triples::difference(alloc, rest),
            "long" => long::answer(alloc, kind, operands),
            "written" => certificates::written(alloc, rest),
            "rewritten" | "anchor_set" | "verified_octets" | "verified_path" | "verified_below" => {
                certificates::answer(alloc, command, rest)
            }
            _ => answer_of_vrps(alloc, command, rest),
        }
    }
}

fn answer_of_vrps<A: Allocator + Copy>(
    alloc: A,
    command: &str,
    rest: &str,
) -> Result<String<A>, AllocError> {
    match command {
        "origin" => routes::answer(alloc, rest),
        "changes" => routes::changes(alloc, rest),
        "changed" => routes::changed(alloc, rest),
        "sent" => sent::answer(alloc, rest),
        "outside" => outside::answer(alloc, rest),
        "route" => route_lines::answer_to_line(alloc, rest, false),
        "why" => route_lines::answer_to_line(alloc, rest, true),
        "vrps" => vrps::of_text(alloc, rest),
        "octets" => vrps::of_octets(alloc, rest),
        "slurm" => slurm::answer(alloc, rest),
        "unexpired" => unexpired::answer(alloc, rest),
        _ => String::from_str(alloc, "no such command"),
    }
}
