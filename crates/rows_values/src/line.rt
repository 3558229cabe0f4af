//! Answers to lines, by their commands.
use crate::modes::Mode;
use crate::takes::Form;
use crate::{covers, orders, takes, texts};
use std::alloc::{AllocError, Allocator};
use test_support::print::cut_at;
use test_support::refusals::Call;

/// A line of the input.
#[derive(Drop)]
pub struct Line<'a>(pub &'a str);

impl Call for Line<'_> {
    fn text(&self) -> &str {
        self.0
    }

    fn answer<A: Allocator + Copy>(&self, alloc: A) -> Result<String<A>, AllocError> {
        let (command, rest) = cut_at(self.0, ' ');
        let (kind, operands) = cut_at(rest, ' ');
        match command {
            "text" => texts::answer(alloc, kind, operands),
            "take" => takes::answer(alloc, (Mode::Lenient, Form::Printed), kind, operands),
            "strict" => takes::answer(alloc, (Mode::Strict, Form::Printed), kind, operands),
            "written" => takes::answer(alloc, (Mode::Lenient, Form::Written), kind, operands),
            "order" => orders::order(alloc, rest),
            "covers" => orders::covers(alloc, rest),
            "prefixes" => covers::answer(alloc, kind, operands),
            _ => String::from_str(alloc, "no such command"),
        }
    }
}
