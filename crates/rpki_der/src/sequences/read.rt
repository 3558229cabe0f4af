//! Reads the values of a SEQUENCE.
ghost use Rattle.std.specs.Prelude.{◌≡◌, ◌≢◌, ◌<◌, ℕ, Bool, List, [], Result, IfOk, length};
ghost use Rattle.rpki_der.specs.declared.error.DerError.{DerError as Fault};
ghost use Rattle.rpki_der.specs.Reading.{IsModal, IsReading, optional};
ghost use Rattle.rpki_der.specs.Views.{Lenient, Takes, is_strict, left};
ghost use Rattle.rpki_der.specs.SequenceReading.{IsSequenceFrom, sequence_from, some_in, values_from};
ghost use Rattle.rpki_der.specs.SequenceViews.{GivesOrMemory, ReadsOrMemory, TakesOrMemory};

use crate::cursor::Cursor;
use crate::error::DerError;
use rpki_text::memory::OrMemory;
use std::alloc::Allocator;

/// A reader of consecutive values. The values that may come next can depend on a state, which follows from the values
/// before.
pub trait ReadNext {
    /// The value that is read.
    type Value: Drop;

    /// The state that is kept of the values before.
    type State: Copy;

    // The state before the first value.
    ghost first: { Self → Self.State };

    // The state after a value.
    ghost after: { Self → Self.State → Self.Value → Self.State };

    // The octets are a value in this state.
    ghost grammar: { Self → Self.State → List ℕ → Self.Value → Type 0 };

    // The value at the front of the octets and the octets after it, or the first fault.
    ghost reading: { Self → Self.State → List ℕ → Result (Self.Value × List ℕ) Fault };

    // The octets are a value in this state that a strict cursor takes.
    ghost strict_grammar: { Self → Self.State → List ℕ → Self.Value → Type 0 };

    // The result of `reading` for a cursor of the given mode: strict (true) or lenient (false).
    ghost reading_by: { Self → Bool → Self.State → List ℕ → Result (Self.Value × List ℕ) Fault };

    /// Returns the state before the first value.
    fn first_state(&self) -> Self::State
        ensures { result ≡ first self.now };

    /// Returns the state after `value`, which was read in `state`.
    fn state_after(&self, state: Self::State, value: &Self::Value) -> Self::State
        ensures { result ≡ after self.now state value.now };

    /// Takes the next value. Returns None if and only if no octet is left.
    ///
    /// # Errors
    ///
    /// The first fault of the octets. The cursor is unchanged after an error.
    fn take_next(
        &self,
        state: Self::State,
        cursor: &mut Cursor<'_>,
    ) -> Result<Option<Self::Value>, DerError>
        ensures exact { Lenient cursor.old
            (Takes (λ value. value) cursor.old cursor.new result
            (optional (reading self.now state))) }
        // In either mode.
        ensures by_mode { Takes (λ value. value) cursor.old cursor.new result
            (optional (reading_by self.now (is_strict cursor.old) state)) }
        ensures mode { is_strict cursor.new ≡ is_strict cursor.old };

    // The reading finds the values of the grammar, with any octets after them, and no others.
    ghost is_reading: { (reader : Self) (state : Self.State)
        → IsReading (grammar reader state) (reading reader state) };

    // A value has at least one octet.
    ghost has_octets: { (reader : Self) (state : Self.State) (front : List ℕ) (value : Self.Value)
        → grammar reader state front value → 0 < length front };

    // For a lenient cursor the result is that of `reading`. For a strict cursor it is the same or `NotCanonical`, and
    // the values that are found are exactly those of the strict grammar.
    ghost is_modal: { (reader : Self) (state : Self.State)
        → IsModal (strict_grammar reader state) (reading reader state)
        (λ strict. reading_by reader strict state) };
}

/// Reads the values of `content` to its end, and returns them in order.
///
/// # Errors
///
/// - `Refused`: the first fault of the octets.
/// - `Memory`: out of memory for the values.
pub fn read_values<R: ReadNext, A: Allocator>(
    alloc: A,
    reader: &R,
    content: Cursor<'_>,
) -> Result<Vec<R::Value, A>, OrMemory<DerError>>
    ensures exact { Lenient content.entry (GivesOrMemory (λ values. values.items) result
        (values_from (R.after reader.now) (R.reading reader.now) (R.first reader.now)
        (left content.entry))) }
    // In either mode.
    ensures by_mode { GivesOrMemory (λ values. values.items) result
        (values_from (R.after reader.now) (R.reading_by reader.now (is_strict content.entry))
        (R.first reader.now) (left content.entry)) }
{
    read_values_by_mode(alloc, reader, content)
}

// The implementation of `read_values`. The further clause of that call, `exact`, follows from `by_mode`.
fn read_values_by_mode<R: ReadNext, A: Allocator>(
    alloc: A,
    reader: &R,
    content: Cursor<'_>,
) -> Result<Vec<R::Value, A>, OrMemory<DerError>>
    ensures by_mode { GivesOrMemory (λ values. values.items) result
        (values_from (R.after reader.now) (R.reading_by reader.now (is_strict content.entry))
        (R.first reader.now) (left content.entry)) }
{
    let mut inside = content;
    let mut values = Vec::new(alloc);
    let mut state = reader.first_state();
    while let Some(value) = reader.take_next(state, &mut inside)? {
        state = reader.state_after(state, &value);
        values.push(value)?;
    }
    Ok(values)
}

/// Reads the values of `content` as [`read_values`] does, and requires at least one.
///
/// # Errors
///
/// The errors of [`read_values`], and `Refused` with `EmptyBlocks` if there is no value.
pub fn read_some<R: ReadNext, A: Allocator>(
    alloc: A,
    reader: &R,
    content: Cursor<'_>,
) -> Result<Vec<R::Value, A>, OrMemory<DerError>>
    ensures by_mode { GivesOrMemory (λ values. values.items) result
        (some_in (values_from (R.after reader.now)
        (R.reading_by reader.now (is_strict content.entry)) (R.first reader.now))
        (left content.entry)) }
    ensures some { IfOk result (λ values. values.items ≢ []) }
{
    let values = read_values(alloc, reader, content)?;
    if values.is_empty() {
        return Err(OrMemory::Refused(DerError::EmptyBlocks));
    }
    Ok(values)
}

/// Takes a SEQUENCE of values (X.690, 8.9 and 8.10), and returns the values in order. The SEQUENCE may be empty.
///
/// # Errors
///
/// The cursor is unchanged after an error.
///
/// - `Refused`: the first fault of the octets. It is an error of [`Cursor::take_sequence`] or of a value.
/// - `Memory`: out of memory for the values.
pub fn take_sequence_of<R: ReadNext, A: Allocator>(
    alloc: A,
    reader: &R,
    cursor: &mut Cursor<'_>,
) -> Result<Vec<R::Value, A>, OrMemory<DerError>>
    ensures reads { Lenient cursor.old
        (ReadsOrMemory
        (IsSequenceFrom (R.after reader.now) (R.grammar reader.now) (R.first reader.now))
        (λ values. values.items) cursor.old cursor.new result) }
    ensures exact { Lenient cursor.old
        (TakesOrMemory (λ values. values.items) cursor.old cursor.new result
        (sequence_from (R.after reader.now) (R.reading reader.now) (R.first reader.now))) }
    // In either mode.
    ensures by_mode { TakesOrMemory (λ values. values.items) cursor.old cursor.new result
        (sequence_from (R.after reader.now) (R.reading_by reader.now (is_strict cursor.old))
        (R.first reader.now)) }
    ensures mode { is_strict cursor.new ≡ is_strict cursor.old }
{
    take_sequence_of_by_mode(alloc, reader, cursor)
}

// The implementation of `take_sequence_of`. The further clauses of that call, `reads` and `exact`, follow from
// `by_mode` by theorems on the grammar.
#[tactic(auto, unfolding(crate::specs::Reading::refined))]
fn take_sequence_of_by_mode<R: ReadNext, A: Allocator>(
    alloc: A,
    reader: &R,
    cursor: &mut Cursor<'_>,
) -> Result<Vec<R::Value, A>, OrMemory<DerError>>
    ensures by_mode { TakesOrMemory (λ values. values.items) cursor.old cursor.new result
        (sequence_from (R.after reader.now) (R.reading_by reader.now (is_strict cursor.old))
        (R.first reader.now)) }
    ensures mode { is_strict cursor.new ≡ is_strict cursor.old }
{
    let mut ahead = *cursor;
    let values = read_values(alloc, reader, ahead.take_sequence()?)?;
    *cursor = ahead;
    Ok(values)
}
