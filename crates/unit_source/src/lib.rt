// The unit source: units made out of containers, with the pointer written and adjusted. The definitions stand in specs/Source.antt.
// The theorems about what it sends are in the crate `unit_source_theorems`.
#![tactic(auto)]

ghost use Rattle.std.specs.Prelude.{◌≡◌, length};
ghost use Rattle.shape.specs.Shape.{au4};
ghost use Rattle.shape.specs.Numbers.{numbers};
ghost use Rattle.refusals.specs.Refusals.{answer_of};
ghost use Rattle.unit_source.specs.Source.{fresh_unit_source, adjusts, source_out_of_range, make_faults, word_sent, unit_sent, source_wait_after, made_by, MakesAs, Makes};
ghost use Rattle.unit_source.specs.Inner.{Ready};

use refusals::Refusal;
use shape::{Adjustment, Shape};

// A source between two units: its offset, and the units since the last adjustment, as far as 3.
#[derive(Clone, Copy)]
pub struct State {
    pub offset: u16,
    pub wait: u8,
}

// A source that has sent nothing: at offset 0, free to adjust.
pub fn fresh() -> State
    ensures { result ≡ fresh_unit_source }
{
    State { offset: 0, wait: 3 }
}

#[tactic(auto, unfolding(crate::specs::Source::adjusts))]
fn is_adjustment(a: Adjustment) -> bool
    ensures { result ≡ adjusts a }
{
    !matches!(a, Adjustment::Nothing)
}

fn out_of_range(top: u16, s: State) -> bool
    ensures { result ≡ source_out_of_range top s }
{
    (top < s.offset) | (3 < s.wait)
}

// The answer to a call, by its state, what is asked, and the lengths of what it is lent.
fn answer(
    shape: Shape,
    s: State,
    a: Adjustment,
    current: usize,
    next: usize,
    unit: usize,
) -> Result<(), Refusal>
    ensures { result ≡ answer_of (make_faults (numbers shape) s a current next unit) }
{
    if out_of_range(shape.top, s) {
        return Err(Refusal::State);
    }
    if (current != shape.size) | (next != shape.size) {
        return Err(Refusal::Container);
    }
    if unit != shape.unit_length() {
        return Err(Refusal::Unit);
    }
    if is_adjustment(a) & (s.wait < 3) {
        return Err(Refusal::Adjustment);
    }
    Ok(())
}

// The pointer word: the offset, with its I bits inverted for an increment and its D bits for a decrement.
#[tactic(auto, unfolding(crate::specs::Source::word_sent))]
fn word_sent(a: Adjustment, offset: u16) -> u16
    ensures { result ≡ word_sent a offset }
{
    match a {
        Adjustment::Nothing => word::plain(offset),
        Adjustment::Increment => word::adjusting(word::I_BITS, offset),
        Adjustment::Decrement => word::adjusting(word::D_BITS, offset),
    }
}

// The whole unit of a source at an offset.
fn write(shape: Shape, a: Adjustment, offset: u16, current: &[u8], next: &[u8], unit: &mut [u8])
    requires { Ready (numbers shape) offset (length current.now) (length next.now) (length unit.old) }
    ensures { unit.new ≡ unit_sent (numbers shape) a offset current.now next.now }
{
    let from = shape.run_from(a);
    let sent = shape.held_count(offset);
    unit::header(shape.step, word_sent(a, offset), from, unit);
    unit::pour(current, next, sent, from, unit);
}

#[tactic(auto, unfolding(crate::specs::Source::source_wait_after))]
fn wait_after(a: Adjustment, wait: u8) -> u8
    ensures { result ≡ source_wait_after a wait }
{
    match a {
        Adjustment::Nothing => counts::one_more(wait, 3),
        Adjustment::Increment | Adjustment::Decrement => 0,
    }
}

// One unit of any shape, of the current container and the next: how many of the two ended.
fn make(
    shape: Shape,
    s: &mut State,
    a: Adjustment,
    current: &[u8],
    next: &[u8],
    unit: &mut [u8],
) -> Result<u8, Refusal>
    ensures { MakesAs (numbers shape) s.old a current.now next.now unit.old (made_by result s.new) unit.new }
{
    let before = *s;
    answer(shape, before, a, current.len(), next.len(), unit.len())?;
    write(shape, a, before.offset, current, next, unit);
    let offset = a.offset_after(shape.top, before.offset);
    let wait = wait_after(a, before.wait);
    *s = State { offset, wait };
    Ok(a.ended_by(before.offset))
}

// The next unit of an AU-4: all 2358 bytes are written, and the state is the one after it. Answers how many of the two containers ended. Refuses 8, 3, 1, 7: then unit and
// state are as they were.
pub fn unit_source(
    s: &mut State,
    a: Adjustment,
    current: &[u8],
    next: &[u8],
    unit: &mut [u8],
) -> Result<u8, Refusal>
    ensures { Makes au4 s.old a current.now next.now unit.old (made_by result s.new) unit.new }
{
    make(Shape::au4(), s, a, current, next, unit)
}
