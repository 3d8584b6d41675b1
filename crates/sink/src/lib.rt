// The sink, the receiving end of a path: what is refused, then pointer, cut, monitor and report, in the paper's order. The definitions stand in specs/Sink.antt.
// The host feeds it one unit after the other; the view of what ended is in the crate `view`.
#![tactic(auto)]

ghost use Rattle.std.specs.Prelude.{◌≡◌, ◌<◌, length, Ok};
ghost use Rattle.shape.specs.Shape.{au4};
ghost use Rattle.shape.specs.Numbers.{numbers};
ghost use Rattle.refusals.specs.Refusals.{answer_of};
ghost use Rattle.sink.specs.Sink.{fresh_sink, sink_out_of_range, sink_faults, pointed, told, received_by, ReceivesAs, Receives};
ghost use Rattle.sink.specs.Inner.{Pointed, UnitOutcomeIs};

use monitor::Monitor;
use pointer::{AfterWord, Pointer};
use receiving::{AfterUnit, Ended};
use refusals::Refusal;
use settings::Settings;
use shape::Shape;
use unit_end::{Actions, Causes, Defects};

// A sink between two units: the pointer, how many bytes are held, what is watched of containers, and the units that ended unsettled since the fresh state.
#[derive(Clone, Copy)]
pub struct State {
    pub pointer: Pointer,
    pub held: usize,
    pub monitor: Monitor,
    pub total: u16,
}

// What is told of a unit: what ended, the actions, the defects, the causes, and whether it ended settled.
#[derive(Clone, Copy)]
pub struct Report {
    pub ended: Ended,
    pub actions: Actions,
    pub defects: Defects,
    pub causes: Causes,
    pub settled: bool,
}

// A sink that has seen nothing.
pub fn fresh() -> State
    ensures { result ≡ fresh_sink }
{
    State {
        pointer: pointer::fresh(),
        held: 0,
        monitor: monitor::blank(0),
        total: 0,
    }
}

fn out_of_range(shape: Shape, s: State) -> bool
    ensures { result ≡ sink_out_of_range (numbers shape) s }
{
    let p = s.pointer;
    let m = s.monitor;
    if !pointer::in_range(shape.top, p) {
        return true;
    }
    if !monitor::in_range(m) {
        return true;
    }
    let state = p.state;
    let count = shape.held_count(pointer_state::offset(state));
    s.held != count
}

// The answer to a call, by its state and settings, and the lengths of what it is lent.
fn answer(
    shape: Shape,
    s: State,
    e: Settings,
    unit: usize,
    held: usize,
    done: usize,
) -> Result<(), Refusal>
    ensures { result ≡ answer_of (sink_faults (numbers shape) s e unit held done) }
{
    if out_of_range(shape, s) {
        return Err(Refusal::State);
    }
    settings::answer(e)?;
    if unit != shape.unit_length() {
        return Err(Refusal::Unit);
    }
    if (held != shape.size) | (done != shape.size) {
        return Err(Refusal::Container);
    }
    Ok(())
}

// The unit's word, read: how it is taken, and the pointer after it.
fn point(shape: Shape, p: Pointer, unit: &[u8]) -> AfterWord
    requires { shape.step < length unit.now }
    ensures { result ≡ pointed (numbers shape) p unit.now }
{
    let second = shape.step;
    let w = word::of(unit[0], unit[second]);
    pointer::step(p, shape.top, w)
}

// What the unit brings, a being the pointer after it.
fn take_unit(
    shape: Shape,
    s: State,
    a: AfterWord,
    e: Settings,
    unit: &[u8],
    held: &mut [u8],
    done: &mut [u8],
) -> AfterUnit
    requires { Pointed (numbers shape) s a unit.now held.old done.old }
    ensures { UnitOutcomeIs (numbers shape) s a e unit.now held.old done.old result held.new done.new }
{
    let p = a.pointer;
    let state = p.state;
    if pointer_state::normal(state) {
        let t = a.taken;
        let m = s.monitor;
        return receiving::receive(
            shape,
            t,
            pointer_state::offset(state),
            s.held,
            m,
            e,
            unit,
            held,
            done,
        );
    }
    receiving::silent()
}

// The state at the unit's end, and what is told of the unit.
fn tell(s: &mut State, p: Pointer, u: AfterUnit, e: Settings) -> Report
    ensures { received_by (Ok result) s.new ≡ told p s.old.total u e }
{
    let state = p.state;
    let flags = e.flags;
    let normal = pointer_state::normal(state);
    let alarm = pointer_state::alarm(state);
    let m = u.monitor;
    let ended = u.ended;
    let defects = unit_end::defects_of(m);
    let settled = unit_end::settled(normal, m, e);
    *s = State {
        pointer: p,
        held: u.held,
        monitor: m,
        total: unit_end::total_after(s.total, settled),
    };
    Report {
        ended,
        actions: unit_end::actions_of(!normal, defects),
        defects,
        causes: unit_end::causes_of(alarm, !normal & !alarm, defects, flags),
        settled,
    }
}

// One unit of any shape.
fn feed(
    shape: Shape,
    s: &mut State,
    e: Settings,
    unit: &[u8],
    held: &mut [u8],
    done: &mut [u8],
) -> Result<Report, Refusal>
    ensures { ReceivesAs (numbers shape) s.old e unit.now held.old done.old (received_by result s.new) held.new done.new }
{
    answer(shape, *s, e, unit.len(), held.len(), done.len())?;
    let a = point(shape, s.pointer, unit);
    let u = take_unit(shape, *s, a, e, unit, held, done);
    Ok(tell(s, a.pointer, u, e))
}

// The next unit of an AU-4: its report, and the state after it. Refuses 8, 4, 5, 1, 3: then state and bytes are as they were.
pub fn sink(
    s: &mut State,
    e: Settings,
    unit: &[u8],
    held: &mut [u8],
    done: &mut [u8],
) -> Result<Report, Refusal>
    ensures { Receives au4 s.old e unit.now held.old done.old (received_by result s.new) held.new done.new }
{
    feed(Shape::au4(), s, e, unit, held, done)
}
