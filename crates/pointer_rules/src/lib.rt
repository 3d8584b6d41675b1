// How a pointer word is taken: rules 1 to 6 of "Reading one pointer word", and what the rest of the sink asks of a word so taken.
// The definitions stand in specs/Rules.antt. The crate `pointer`, which goes from word to word, rests on it.
// `top` is the largest pointer value, 782 in AU-4.
#![tactic(auto)]

ghost use Rattle.std.specs.Prelude.{◌≡◌};
ghost use Rattle.pointer_rules.specs.Rules.{run_after, adjustment, in_normal, by_state, taken_as, restarts, adjustment_of};

use pointer_state::State;
use shape::Adjustment;
use word::Ndf;

// How a word is taken, with the offset that it names or leads to. A resync is rule 3; a plain word changes nothing, in normal by rule 4 and in alarm or lost by rule 5.
#[derive(Clone, Copy)]
pub enum Taken {
    AlarmWord,
    NewData(u16),
    Resync(u16),
    Adjusted(Adjustment, u16),
    Plain,
    Invalid,
}

// How many of the last words were alike, as far as 3, and their value; both 0 where there is no run.
// Kept: two numbers and no Option, since C is handed them so (`Plain` of probe_sink).
#[repr(C)]
#[derive(Clone, Copy)]
pub struct Run {
    pub count: u8,
    pub value: u16,
}

// The run with the word w in it.
pub fn run_after(run: Run, top: u16, w: u16) -> Run
    ensures { result ≡ run_after run top w }
{
    if word::is_good(Ndf::Normal as u8, top, w) {
        let value = word::value(w);
        let count = counts::run_on(run.value == value, run.count, 3);
        Run { count, value }
    } else {
        Run { count: 0, value: 0 }
    }
}

// What i inverted I bits and d inverted D bits are.
fn adjust(top: u16, offset: u16, i: u32, d: u32) -> Taken
    ensures { result ≡ adjustment top offset i d }
{
    if (3 <= i) & (d <= 2) {
        let up = Adjustment::Increment.offset_after(top, offset);
        Taken::Adjusted(Adjustment::Increment, up)
    } else if (3 <= d) & (i <= 2) {
        let down = Adjustment::Decrement.offset_after(top, offset);
        Taken::Adjusted(Adjustment::Decrement, down)
    } else {
        Taken::Invalid
    }
}

// Rules 4 and 6 in the normal state.
fn take_normal(offset: u16, wait: u8, top: u16, w: u16) -> Taken
    ensures { result ≡ in_normal offset wait top w }
{
    if !word::of_kind(Ndf::Normal as u8, w) {
        Taken::Invalid
    } else if word::value(w) == offset {
        Taken::Plain
    } else if wait < 3 {
        Taken::Invalid
    } else {
        let i = word::inverted_at(word::I_BITS, w, offset);
        let d = word::inverted_at(word::D_BITS, w, offset);
        adjust(top, offset, i, d)
    }
}

// How a word is taken where rules 1 to 3 do not apply: rules 4 to 6, by the state.
fn take_by_state(state: State, wait: u8, top: u16, w: u16) -> Taken
    ensures { result ≡ by_state state wait top w }
{
    match state {
        State::Normal(offset) => take_normal(offset, wait, top, w),
        State::Alarm | State::Lost => {
            if word::is_good(Ndf::Normal as u8, top, w) {
                Taken::Plain
            } else {
                Taken::Invalid
            }
        }
    }
}

// How a word is taken; `alike` is the count of the run with this word in it, `wait` that of the units since the last adjustment or new data.
pub fn take(state: State, alike: u8, wait: u8, top: u16, w: u16) -> Taken
    ensures { result ≡ taken_as state alike wait top w }
{
    let v = word::value(w);
    if w == 0xffff {
        Taken::AlarmWord
    } else if word::is_good(Ndf::Enabled as u8, top, w) {
        Taken::NewData(v)
    } else if 3 <= alike && state != State::Normal(v) {
        Taken::Resync(v)
    } else {
        take_by_state(state, wait, top, w)
    }
}

// Whether a word so taken drops the held bytes and the last parity.
pub fn is_restart(t: Taken) -> bool
    ensures { result ≡ restarts t }
{
    matches!(t, Taken::NewData(_) | Taken::Resync(_))
}

// What the unit of a word so taken does to the offset.
pub fn adjustment_of(t: Taken) -> Adjustment
    ensures { result ≡ adjustment_of t }
{
    match t {
        Taken::Adjusted(a, _) => a,
        _ => Adjustment::Nothing,
    }
}
