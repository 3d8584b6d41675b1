// What a unit that ends normal leaves: the containers that ended in it, watched one after the other, and the bytes that are held.
// The definitions stand in specs/Receiving.antt, the steps of the code between them in specs/InnerTurns.antt. The sink rests on this crate.
#![tactic(auto)]

ghost use Rattle.std.specs.Prelude.{◌≡◌, ◌*◌, ◌<◌, ◌≤◌, length};
ghost use Rattle.shape.specs.Numbers.{numbers};
ghost use Rattle.cut.specs.Cut.{inside_part};
ghost use Rattle.receiving.specs.InnerTurns.{seen_where, taken, taken_both};
ghost use Rattle.receiving.specs.Receiving.{monitor_in, from_in, begin_in, not_seen, ended_in, silence, both_seen};
ghost use Rattle.receiving.specs.Inner.{Receivable, Inside, Seeable, NormalOutcomeIs};

use cut::Cut;
use monitor::{Monitor, Overhead, Seen};
use pointer_rules::Taken;
use settings::Settings;
use shape::{Adjustment, Shape};

// What is told of a container: the columns of parity that are violated, whose number is its REI (`overhead::violations`), and the violations that the far end returned.
#[repr(C)]
#[derive(Clone, Copy)]
pub struct Told {
    pub violated: u8,
    pub returned: u8,
}

// What ended in a unit: how many containers; whether one was completed in the done buffer; whether one is a part of the unit itself, and from which place.
// `first` is told of the one completed, `second` of the one inside; it is 0 where there is none.
// Kept: flags with a place and what is told beside them, and no Option, since `probe_sink_c` hands this struct to C.
#[repr(C)]
#[derive(Clone, Copy)]
pub struct Ended {
    pub number: u8,
    pub completed: bool,
    pub inside: bool,
    pub place: usize,
    pub first: Told,
    pub second: Told,
}

// What a unit leaves: the monitor, how many bytes are held, and what ended.
#[derive(Clone, Copy)]
pub struct AfterUnit {
    pub monitor: Monitor,
    pub held: usize,
    pub ended: Ended,
}

// Where a unit goes on: the held bytes that it goes on with, and the place in it where its run of container bytes begins.
#[derive(Clone, Copy)]
struct Begin {
    kept: usize,
    from: usize,
}

// The monitor that the unit's containers meet: without its last parity, where the unit restarts.
fn monitor_in(t: Taken, m: Monitor) -> Monitor
    ensures { result ≡ monitor_in t m }
{
    if pointer_rules::is_restart(t) {
        monitor::forget(m)
    } else {
        m
    }
}

// Where the run of container bytes begins: at J1 where the unit restarts, else by the adjustment.
#[tactic(auto, unfolding(crate::specs::Receiving::from_in))]
fn from(shape: Shape, restart: bool, a: Adjustment, offset: u16) -> usize
    requires { offset ≤ shape.top }
    ensures { result ≡ from_in (numbers shape) restart a offset }
{
    if restart {
        3 * shape.step + shape.place(offset)
    } else {
        shape.run_from(a)
    }
}

// Where the unit goes on, its word taken as t.
#[tactic(auto, unfolding(crate::specs::Receiving::begin_in))]
fn goes_on(shape: Shape, t: Taken, offset: u16, count: usize) -> Begin
    requires { offset ≤ shape.top }
    ensures { result ≡ begin_in (numbers shape) t offset count }
{
    let restart = pointer_rules::is_restart(t);
    Begin {
        kept: if restart { 0 } else { count },
        from: from(shape, restart, pointer_rules::adjustment_of(t), offset),
    }
}

// The container completed in the done buffer, seen where one was.
fn see_completed(shape: Shape, c: Cut, done: &[u8]) -> Option<Overhead>
    requires { (0 < shape.columns) × (3 * shape.columns < length done.now) }
    ensures { result ≡ seen_where c.ends shape.columns done.now }
{
    if c.ends {
        Some(monitor::see(shape.columns, done))
    } else {
        None
    }
}

// The container inside the unit, seen where there is one: that part of the unit is passed on.
fn see_inside(shape: Shape, c: Cut, unit: &[u8]) -> Option<Overhead>
    requires { Inside (numbers shape) c unit.now }
    ensures { result ≡ seen_where c.inside shape.columns (inside_part (numbers shape) c unit.now) }
{
    if c.inside {
        let end = c.next + shape.size;
        return Some(monitor::see(shape.columns, &unit[c.next..end]));
    }
    None
}

// A unit that ends in alarm or lost: nothing is held, nothing ended, and all that was seen is cleared.
#[tactic(auto, unfolding(crate::specs::Receiving::silence))]
pub fn silent() -> AfterUnit
    ensures { result ≡ silence }
{
    let none = Told {
        violated: 0x00,
        returned: 0,
    };
    AfterUnit {
        monitor: monitor::blank(48),
        held: 0,
        ended: Ended {
            number: 0,
            completed: false,
            inside: false,
            place: 0,
            first: none,
            second: none,
        },
    }
}

// What ended, by the cut and what was seen.
#[tactic(auto, unfolding(crate::specs::Receiving::ended_in, cut::specs::Cut::ended_count))]
fn ended_in(c: Cut, earlier: Seen, later: Seen) -> Ended
    ensures { result ≡ ended_in c earlier later }
{
    Ended {
        number: u8::from(c.ends) + u8::from(c.inside),
        completed: c.ends,
        inside: c.inside,
        place: if c.inside { c.next } else { 0 },
        first: Told {
            violated: earlier.violated,
            returned: earlier.returned,
        },
        second: Told {
            violated: later.violated,
            returned: later.returned,
        },
    }
}

// Where no container ended.
fn unseen(m: Monitor) -> Seen
    ensures { result ≡ not_seen m }
{
    Seen {
        monitor: m,
        violated: 0x00,
        returned: 0,
    }
}

// One container taken in, where one ended.
fn take(o: Option<Overhead>, m: Monitor, e: Settings) -> Seen
    ensures { result ≡ taken o e m }
{
    match o {
        Some(o) => monitor::step(m, o, e),
        None => unseen(m),
    }
}

// Both taken in, one after the other.
// Kept: a loop, and not two calls of `take`, with which a plain unit takes a sixth longer: the one call here is made a part of the sink, and no monitor is copied to and from it.
fn take_both(
    c: Cut,
    completed: Option<Overhead>,
    inside: Option<Overhead>,
    m: Monitor,
    e: Settings,
) -> AfterUnit
    ensures { result ≡ taken_both c completed inside m e }
{
    let none = unseen(m);
    let mut earlier = none;
    let mut later = none;
    for o in [completed, inside] {
        earlier = later;
        later = take(o, earlier.monitor, e);
    }
    AfterUnit {
        monitor: later.monitor,
        held: c.rest,
        ended: ended_in(c, earlier, later),
    }
}

// What is seen in a unit cut so: in the done buffer, and then in the unit itself.
fn watch_both(shape: Shape, c: Cut, unit: &[u8], done: &[u8], m: Monitor, e: Settings) -> AfterUnit
    requires { Seeable (numbers shape) c unit.now done.now }
    ensures { result ≡ both_seen (numbers shape) c done.now (inside_part (numbers shape) c unit.now) m e }
{
    let completed = see_completed(shape, c, done);
    let inside = see_inside(shape, c, unit);
    take_both(c, completed, inside, m, e)
}

// A unit that ends normal at the offset, its word taken as t, with `count` bytes held before it.
// Kept: `held` and `done` beside each other, and no struct of both: where a struct holds a `&mut`, each contract says besides that it is the same one.
pub fn receive(
    shape: Shape,
    t: Taken,
    offset: u16,
    count: usize,
    m: Monitor,
    e: Settings,
    unit: &[u8],
    held: &mut [u8],
    done: &mut [u8],
) -> AfterUnit
    requires { Receivable (numbers shape) t offset count unit.now held.old done.old }
    ensures { NormalOutcomeIs (numbers shape) t offset count m e unit.now held.old done.old result held.new done.new }
{
    let b = goes_on(shape, t, offset, count);
    let before = monitor_in(t, m);
    let c = cut::cut_unit(shape, b.kept, b.from, unit, held, done);
    watch_both(shape, c, unit, done, before, e)
}
