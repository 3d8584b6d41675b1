// For tests and benchmarks only: the sink and the view of what it hands back, as functions that Rust and C can link. No enum can be handed across, so the pointer's state and the answer become numbers
// by the definitions of specs/Probe.antt; all else is handed across as it is, and any state can be given. Nothing of the card rests on this crate.
#![tactic(auto)]

ghost use Rattle.std.specs.Prelude.{◌≡◌};
ghost use Rattle.sink.specs.Sink as sink;
ghost use Rattle.sink.specs.Sink.{received_by};
ghost use Rattle.probe_sink.specs.Probe.{pointer_state, state_kind, state_of, plain_of, untold, received_as, shown_of, Shows, WritesContainer};

use monitor::Monitor;
use pointer::{Pointer, Rows};
use pointer_rules::Run;
use receiving::Ended;
use refusals::Refusal;
use settings::Settings;
use sink::Report;
use unit_end::{Actions, Causes, Defects};

// A sink's state: the kind is 0 for lost, 1 for alarm, 2 for normal; the offset counts where it is normal.
#[repr(C)]
#[derive(Clone, Copy)]
pub struct Plain {
    pub kind: u8,
    pub offset: u16,
    pub rows: Rows,
    pub run: Run,
    pub wait: u8,
    pub held: usize,
    pub monitor: Monitor,
    pub total: u16,
}

// What a call answers: the refusal's number, 0 for none, the character's place that it names, 0 for none, and the rest as the sink has it.
#[repr(C)]
#[derive(Clone, Copy)]
pub struct Shown {
    pub number: u8,
    pub place: usize,
    pub state: Plain,
    pub ended: Ended,
    pub actions: Actions,
    pub defects: Defects,
    pub causes: Causes,
    pub settled: bool,
}

// Kept: a number for the state, since C can be handed no enum.
fn pointer_state(kind: u8, offset: u16) -> pointer_state::State
    ensures { result ≡ pointer_state kind offset }
{
    if kind == 0 {
        return pointer_state::State::Lost;
    }
    if kind == 1 {
        return pointer_state::State::Alarm;
    }
    pointer_state::State::Normal(offset)
}

fn kind(state: pointer_state::State) -> u8
    ensures { result ≡ state_kind state }
{
    match state {
        pointer_state::State::Normal(_) => 2,
        pointer_state::State::Alarm => 1,
        pointer_state::State::Lost => 0,
    }
}

fn state_of(p: Plain) -> sink::State
    ensures { result ≡ state_of p }
{
    let rows = p.rows;
    let run = p.run;
    let monitor = p.monitor;
    let pointer = Pointer {
        state: pointer_state(p.kind, p.offset),
        rows,
        run,
        wait: p.wait,
    };
    sink::State {
        pointer,
        held: p.held,
        monitor,
        total: p.total,
    }
}

fn plain_of(s: sink::State) -> Plain
    ensures { result ≡ plain_of s }
{
    let p = s.pointer;
    let state = p.state;
    let rows = p.rows;
    let run = p.run;
    let monitor = s.monitor;
    Plain {
        kind: kind(state),
        offset: pointer_state::offset(state),
        rows,
        run,
        wait: p.wait,
        held: s.held,
        monitor,
        total: s.total,
    }
}

// What is told of a unit where none was, of a monitor that has seen nothing.
fn untold() -> Report
    ensures { result ≡ untold }
{
    let none = receiving::silent();
    let ended = none.ended;
    let m = none.monitor;
    let defects = unit_end::defects_of(m);
    Report {
        ended,
        actions: unit_end::actions_of(false, defects),
        defects,
        causes: unit_end::causes_of(false, false, defects, settings::flags_of(0)),
        settled: false,
    }
}

fn show_as(a: Result<(), Refusal>, s: sink::State, r: Report) -> Shown
    ensures { result ≡ shown_of (received_as a s r) }
{
    let ended = r.ended;
    let actions = r.actions;
    let defects = r.defects;
    let causes = r.causes;
    Shown {
        number: refusals::number(a),
        place: refusals::place(a),
        state: plain_of(s),
        ended,
        actions,
        defects,
        causes,
        settled: r.settled,
    }
}

fn show(a: Result<Report, Refusal>, s: sink::State) -> Shown
    ensures { result ≡ shown_of (received_by a s) }
{
    match a {
        Ok(r) => show_as(Ok(()), s, r),
        Err(x) => show_as(Err(x), s, untold()),
    }
}

// The state of a sink that has seen nothing.
pub fn probe_fresh_sink() -> Plain
    ensures { result ≡ plain_of sink.fresh_sink }
{
    plain_of(sink::fresh())
}

// The sink.
pub fn probe_sink(s: Plain, e: Settings, unit: &[u8], held: &mut [u8], done: &mut [u8]) -> Shown
    ensures { Shows s e unit.now held.old done.old result held.new done.new }
{
    let mut state = state_of(s);
    let a = sink::sink(&mut state, e, unit, held, done);
    show(a, state)
}

// The container that ended k-th in a unit, counted from 0, taken through the view: its bytes are written to the start of `out`, and their number is answered. Where so many
// did not end, or `out` is shorter than the container, nothing is written, and the answer is 0.
pub fn probe_handed<'a>(
    ended: Ended,
    unit: &'a [u8],
    done: &'a [u8],
    k: usize,
    out: &mut [u8],
) -> usize
    ensures { WritesContainer ended unit.now done.now k out.old result out.new }
{
    let shape = shape::Shape::au4();
    let container = view::container(ended, shape.size, done, unit, k);
    if out.len() < container.len() {
        return 0;
    }
    copier::copy_at(container, out, 0);
    container.len()
}
