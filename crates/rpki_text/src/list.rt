//! Reads lists of texts that are separated by commas, and prints them.
ghost use Rattle.std.specs.Prelude.{◌≡◌, ℕ, List, map, Option, Some, Ok, Err, MatchResult};
ghost use Rattle.std.specs.Fmt.{WritesOnOk, DisplaysOnOk};
ghost use Rattle.std.specs.Str.{trim};
ghost use Rattle.rpki_text.specs.Memory.{IfRefused};
ghost use Rattle.rpki_text.specs.Lists.{elements, joined, HaveValues, HasFirstFault};

use crate::memory::OrMemory;
use std::alloc::Allocator;
use std::fmt;
use std::marker::PhantomData;
use std::str::FromStr;

/// A reader of the elements of a list.
pub trait ReadElement {
    /// The value of an element.
    type Value: Drop;

    /// The error of an element that has no value.
    type Fault;

    // The text writes the value.
    ghost has: { Self → List ℕ → Self.Value → Type 0 };

    // The text has the fault.
    ghost fails: { Self → List ℕ → Self.Fault → Type 0 };

    /// Returns the value that the text of an element writes.
    ///
    /// # Errors
    ///
    /// The fault of the text.
    fn read_element(&self, text: &str) -> Result<Self::Value, Self::Fault>
        ensures { MatchResult result (has self.now text.now) (fails self.now text.now) };
}

/// Returns the text without white space at its start and end.
///
/// If the first and the last byte of at least two are visible ASCII, the call does not decode characters.
#[tactic(auto, using(crate::proofs::TrimLemmas::trim_visible))]
fn trimmed(text: &str) -> &str
    ensures { result.now ≡ trim text.now }
{
    if let [first, .., last] = text.as_bytes() {
        if first.is_ascii_graphic() && last.is_ascii_graphic() {
            return text;
        }
    }
    text.trim()
}

/// Returns the values of the elements of a list, in order.
///
/// The call splits `text` at its commas, trims white space from each part, and skips the parts that are then empty.
///
/// # Errors
///
/// - [`OrMemory::Refused`]: the fault of the first element that has no value.
/// - [`OrMemory::Memory`]: out of memory.
pub fn read_elements<R: ReadElement, A: Allocator>(
    alloc: A,
    reader: &R,
    text: &str,
) -> Result<Vec<R::Value, A>, OrMemory<R::Fault>>
    ensures { MatchResult result
        (λ values. HaveValues (R.has reader.now) (elements text.now) values.items)
        (IfRefused (HasFirstFault (R.has reader.now) (R.fails reader.now) (elements text.now))) }
{
    let mut values = Vec::new(alloc);
    for part in text.split(',') {
        let element = trimmed(part);
        if element.is_empty() {
            continue;
        }
        match reader.read_element(element) {
            Ok(value) => values.push(value)?,
            Err(fault) => return Err(OrMemory::Refused(fault)),
        }
    }
    Ok(values)
}

/// A reader that uses the `FromStr` of the element type.
#[derive(Drop)]
struct ByFromStr<T> {
    value: PhantomData<T>,
}

impl<T: FromStr + Drop> ReadElement for ByFromStr<T> {
    type Value = T;

    type Fault = T::Err;

    ghost has = { λ _ text value. T.from_str_gives text (Ok value) };

    ghost fails = { λ _ text fault. T.from_str_gives text (Err fault) };

    fn read_element(&self, text: &str) -> Result<T, T::Err> {
        T::from_str(text)
    }
}

/// Returns the values of the elements of a list, as [`read_elements`] does, with the `FromStr` of their type.
///
/// # Errors
///
/// The errors of [`read_elements`].
pub fn read_list<T: FromStr + Drop, A: Allocator>(
    alloc: A,
    text: &str,
) -> Result<Vec<T, A>, OrMemory<T::Err>>
    ensures { MatchResult result
        (λ values. HaveValues (λ t value. T.from_str_gives t (Ok value))
        (elements text.now) values.items)
        (IfRefused (HasFirstFault
        (λ t value. T.from_str_gives t (Ok value))
        (λ t fault. T.from_str_gives t (Err fault))
        (elements text.now))) }
{
    let reader = ByFromStr { value: PhantomData };
    read_elements(alloc, &reader, text)
}

/// A printer of the elements of a list.
pub trait FmtElement {
    /// The type of an element.
    type Item;

    // The text of an item, if it is known.
    ghost text: { Self → Self.Item → Option (List ℕ) };

    /// Prints one element.
    ///
    /// # Errors
    ///
    /// `fmt::Error`: the writer of `f` or the printer failed. A part of the text may be written then.
    fn fmt_element<W: fmt::Write>(
        &self,
        item: &Self::Item,
        f: &mut fmt::Formatter<W>,
    ) -> fmt::Result
        ensures writes { DisplaysOnOk W.write_str_gives f.old result
            (text self.now item.now) f.new };
}

/// Prints the elements of a list with a comma and a space between them. Prints nothing for an empty list.
///
/// # Errors
///
/// `fmt::Error`: the writer of `f` or the printer failed. A part of the text may be written then.
pub fn fmt_elements<P: FmtElement, W: fmt::Write>(
    printer: &P,
    items: &[P::Item],
    f: &mut fmt::Formatter<W>,
) -> fmt::Result
    // If the printer's text of every item is known, the joined texts of the elements are written.
    ensures { (show : P.Item → List ℕ)
        → ((item : P.Item) → P.text printer.now item ≡ Some (show item))
        → WritesOnOk W.write_str_gives f.old result (joined (map show items.now)) f.new }
{
    if let [first, rest @ ..] = items {
        printer.fmt_element(first, f)?;
        for item in rest {
            f.write_str(", ")?;
            printer.fmt_element(item, f)?;
        }
    }
    Ok(())
}

/// A printer that uses the `Display` of the element type.
#[derive(Drop)]
struct ByDisplay<T> {
    item: PhantomData<T>,
}

impl<T: fmt::Display> FmtElement for ByDisplay<T> {
    type Item = T;

    ghost text = { λ _ item. T.output item };

    fn fmt_element<W: fmt::Write>(&self, item: &T, f: &mut fmt::Formatter<W>) -> fmt::Result {
        item.fmt(f)
    }
}

/// Prints the elements of a list, as [`fmt_elements`] does, with the `Display` of their type.
///
/// # Errors
///
/// The errors of [`fmt_elements`].
pub fn fmt_joined<T: fmt::Display, W: fmt::Write>(
    items: &[T],
    f: &mut fmt::Formatter<W>,
) -> fmt::Result
    // If the text of every item is known, the joined texts of the elements are written.
    ensures { (show : T → List ℕ) → ((item : T) → T.output item ≡ Some (show item))
        → WritesOnOk W.write_str_gives f.old result (joined (map show items.now)) f.new }
{
    let printer = ByDisplay { item: PhantomData };
    fmt_elements(&printer, items, f)
}
