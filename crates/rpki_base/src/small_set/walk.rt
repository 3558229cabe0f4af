//! The traversal of two ascending lists of AS numbers, which all set operations share.
ghost use Rattle.std.specs.Prelude.{◌≡◌, [], ◌∷◌, MatchOption};
ghost use Rattle.rpki_base.specs.Walks.{walk};
ghost use Rattle.rpki_base.specs.Steps.{IsStep, chosen};

use crate::asn::Asn;
use std::cmp::Ordering;

/// The set or sets that a number is in.
#[derive(Clone, Copy)]
pub(crate) enum Side {
    Left,
    Both,
    Right,
}

/// The numbers that an operation gives, by the set or sets that they are in.
#[derive(Clone, Copy)]
pub struct Wanted {
    left: bool,
    both: bool,
    right: bool,
}

impl Wanted {
    /// The numbers of a difference: those of the left list only.
    pub(crate) const LEFT: Wanted = Wanted {
        left: true,
        both: false,
        right: false,
    };

    /// The numbers of a symmetric difference: those of exactly one list.
    pub(crate) const ONE: Wanted = Wanted {
        left: true,
        both: false,
        right: true,
    };

    /// The numbers of an intersection: those of both lists.
    pub(crate) const BOTH: Wanted = Wanted {
        left: false,
        both: true,
        right: false,
    };

    /// The numbers of a union: those of at least one list.
    pub(crate) const ANY: Wanted = Wanted {
        left: true,
        both: true,
        right: true,
    };

    /// Returns whether the operation gives the numbers of this side.
    fn has(self, side: Side) -> bool
        ensures { result ≡ chosen self side }
    {
        match side {
            Side::Left => self.left,
            Side::Both => self.both,
            Side::Right => self.right,
        }
    }
}

/// The rest of two ascending lists.
#[derive(Clone, Copy, Debug)]
pub(crate) struct Walk<'a> {
    pub(crate) left: &'a [Asn],
    pub(crate) right: &'a [Asn],
}

/// The lowest number of both lists, its side, and the rest of the lists after it.
#[derive(Clone, Copy)]
struct Step<'a> {
    asn: Asn,
    side: Side,
    rest: Walk<'a>,
}

impl<'a> Walk<'a> {
    /// Returns the next step, if a list has a number left.
    fn step(&self) -> Option<Step<'a>>
        ensures { MatchOption result
            ((self.now.left.now ≡ []) × (self.now.right.now ≡ []))
            (λ step. IsStep self.now.left.now self.now.right.now
            step.side step.asn step.rest.left.now step.rest.right.now) }
    {
        match (self.left, self.right) {
            ([], []) => None,
            ([asn, left @ ..], []) => Some(Step {
                asn: *asn,
                side: Side::Left,
                rest: Walk {
                    left,
                    right: self.right,
                },
            }),
            ([], [asn, right @ ..]) => Some(Step {
                asn: *asn,
                side: Side::Right,
                rest: Walk {
                    left: self.left,
                    right,
                },
            }),
            ([low, left @ ..], [high, right @ ..]) => Some(match low.cmp(high) {
                Ordering::Less => Step {
                    asn: *low,
                    side: Side::Left,
                    rest: Walk {
                        left,
                        right: self.right,
                    },
                },
                Ordering::Equal => Step {
                    asn: *low,
                    side: Side::Both,
                    rest: Walk { left, right },
                },
                Ordering::Greater => Step {
                    asn: *high,
                    side: Side::Right,
                    rest: Walk {
                        left: self.left,
                        right,
                    },
                },
            }),
        }
    }

    /// Returns the next number that the operation gives. Each iteration takes a number off one list or off both.
    pub(crate) fn next(&mut self, wanted: Wanted) -> Option<Asn>
        ensures { MatchOption result
            ((walk wanted self.old.left.now self.old.right.now ≡ [])
            × (walk wanted self.new.left.now self.new.right.now ≡ []))
            (λ asn. walk wanted self.old.left.now self.old.right.now
            ≡ asn ∷ walk wanted self.new.left.now self.new.right.now) }
    {
        while let Some(step) = self.step() {
            *self = step.rest;
            if wanted.has(step.side) {
                return Some(step.asn);
            }
        }
        None
    }
}
