// The state of the pointer, normal with its offset, alarm or lost, and what is asked of it. The definitions stand in specs/State.antt.
// The rules of the pointer, its machine and the sink rest on this crate.
#![tactic(auto)]

ghost use Rattle.std.specs.Prelude.{◌≡◌};
ghost use Rattle.pointer_state.specs.State.{is_normal, is_alarm, offset_of, placed};

// Normal with its offset, alarm or lost.
#[derive(Clone, Copy, PartialEq, Eq)]
pub enum State {
    Normal(u16),
    Alarm,
    Lost,
}

// Whether the state is normal.
pub fn normal(state: State) -> bool
    ensures { result ≡ is_normal state }
{
    matches!(state, State::Normal(_))
}

// Whether the state is alarm.
pub fn alarm(state: State) -> bool
    ensures { result ≡ is_alarm state }
{
    matches!(state, State::Alarm)
}

// The offset of a normal state; 0 of any other.
// Kept: a number and no Option, since `pointer_state::offset` promises 0 of any other state (`offset_of`).
pub fn offset(state: State) -> u16
    ensures { result ≡ offset_of state }
{
    match state {
        State::Normal(v) => v,
        State::Alarm | State::Lost => 0,
    }
}

// Whether a normal state's offset is a pointer value.
pub fn is_placed(top: u16, state: State) -> bool
    ensures { result ≡ placed top state }
{
    match state {
        State::Normal(v) => v <= top,
        State::Alarm | State::Lost => true,
    }
}
