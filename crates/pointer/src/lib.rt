// The pointer from word to word: rows, state and wait after a word taken by the rules of the crate `pointer_rules`, and one step with it all.
// The definitions stand in specs/Machine.antt, the laws in proofs/Ranges.antt and 01's table in proofs/Table.antt. The sink rests on it.
// `top` is the largest pointer value, 782 in AU-4.
#![tactic(auto)]

ghost use Rattle.std.specs.Prelude.{◌≡◌};
ghost use Rattle.pointer.specs.Machine.{fresh_pointer, rows_after, state_after, wait_after, pointer_step, pointer_in_range};

use pointer_rules::{Run, Taken};
use pointer_state::State;

// How many of the last words, in a row, were taken as alarm words (as far as 3), as new data and as invalid (as far as 8).
#[repr(C)]
#[derive(Clone, Copy)]
pub struct Rows {
    pub alarms: u8,
    pub news: u8,
    pub invalids: u8,
}

// A pointer between two words. The wait is the units since the last adjustment or new data that ended normal, as far as 3.
#[derive(Clone, Copy)]
pub struct Pointer {
    pub state: State,
    pub rows: Rows,
    pub run: Run,
    pub wait: u8,
}

// How a word was taken, and the pointer after it.
#[derive(Clone, Copy)]
pub struct AfterWord {
    pub taken: Taken,
    pub pointer: Pointer,
}

const NO_ROWS: Rows = Rows {
    alarms: 0,
    news: 0,
    invalids: 0,
};

// The pointer before any word: lost, and free to adjust.
pub fn fresh() -> Pointer
    ensures { result ≡ fresh_pointer }
{
    Pointer {
        state: State::Lost,
        rows: NO_ROWS,
        run: Run { count: 0, value: 0 },
        wait: 3,
    }
}

// The rows with a word taken as t in them.
fn rows_after(rows: Rows, t: Taken) -> Rows
    ensures { result ≡ rows_after rows t }
{
    match t {
        Taken::AlarmWord => Rows {
            alarms: counts::one_more(rows.alarms, 3),
            ..NO_ROWS
        },
        Taken::NewData(_) => Rows {
            news: counts::one_more(rows.news, 8),
            ..NO_ROWS
        },
        Taken::Invalid => Rows {
            invalids: counts::one_more(rows.invalids, 8),
            ..NO_ROWS
        },
        Taken::Resync(_) | Taken::Adjusted(_, _) | Taken::Plain => NO_ROWS,
    }
}

// The state after a word taken as t; `rows` are those with this word in them.
fn state_after(state: State, rows: Rows, t: Taken) -> State
    ensures { result ≡ state_after state rows t }
{
    match t {
        Taken::AlarmWord => {
            if 3 <= rows.alarms {
                State::Alarm
            } else {
                state
            }
        }
        Taken::NewData(v) => match state {
            State::Normal(_) | State::Alarm if rows.news < 8 => State::Normal(v),
            _ => State::Lost,
        },
        Taken::Resync(v) | Taken::Adjusted(_, v) => State::Normal(v),
        Taken::Plain => state,
        Taken::Invalid => {
            if 8 <= rows.invalids {
                State::Lost
            } else {
                state
            }
        }
    }
}

// The wait after a word taken as t that led to the state given.
fn wait_after(wait: u8, state: State, t: Taken) -> u8
    ensures { result ≡ wait_after wait state t }
{
    match t {
        Taken::NewData(_) if pointer_state::normal(state) => 0,
        Taken::Adjusted(_, _) => 0,
        _ => counts::one_more(wait, 3),
    }
}

// One word: how it is taken, and the pointer after it.
pub fn step(s: Pointer, top: u16, w: u16) -> AfterWord
    ensures { result ≡ pointer_step s top w }
{
    let run = pointer_rules::run_after(s.run, top, w);
    let taken = pointer_rules::take(s.state, run.count, s.wait, top, w);
    let rows = rows_after(s.rows, taken);
    let state = state_after(s.state, rows, taken);
    let wait = wait_after(s.wait, state, taken);
    AfterWord {
        taken,
        pointer: Pointer {
            state,
            rows,
            run,
            wait,
        },
    }
}

// Whether every number of the pointer is in its range.
pub fn in_range(top: u16, s: Pointer) -> bool
    ensures { result ≡ pointer_in_range top s }
{
    pointer_state::is_placed(top, s.state)
        & ((s.rows.alarms <= 3) & (s.rows.news <= 8) & (s.rows.invalids <= 8))
        & ((s.run.count <= 3) & (s.run.value <= top))
        & (s.wait <= 3)
}
