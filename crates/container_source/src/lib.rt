// The container source, the sending end of a path: the overhead of each container, what is refused, and the state from one container to the next.
// The definitions stand in specs/: Overhead (the nine bytes), Source (the call). The theorems about what it sends are in the crate `container_source_theorems`.
#![tactic(auto)]

ghost use Rattle.std.specs.Prelude.{◌≡◌, ◌≤◌};
ghost use Rattle.shape.specs.Shape.{au4};
ghost use Rattle.shape.specs.Numbers.{numbers};
ghost use Rattle.refusals.specs.Refusals.{answer_of};
ghost use Rattle.container_source.specs.Overhead.{j1_of, g1_of, overhead_of};
ghost use Rattle.container_source.specs.Source.{fresh_container_source, send_faults, SendsAs, Sends};

use refusals::Refusal;
use shape::Shape;

// A source between two containers: the next place in the 16-byte message, and the parity of the container before.
#[derive(Clone, Copy)]
pub struct State {
    pub place: u8,
    pub parity: u8,
}

// The five overhead bytes that are passed on unexamined.
#[derive(Clone, Copy)]
pub struct Unexamined {
    pub f2: u8,
    pub h4: u8,
    pub f3: u8,
    pub k3: u8,
    pub n1: u8,
}

// What a container carries beside trace and payload: the label, the five bytes, and what is returned to the far end. Eight bytes, so that it goes in one register.
#[derive(Clone, Copy)]
pub struct Given {
    pub label: u8,
    pub unexamined: Unexamined,
    pub violations: u8,
    pub remote: bool,
}

// A source that has sent nothing.
pub fn fresh() -> State
    ensures { result ≡ fresh_container_source }
{
    State {
        place: 0,
        parity: 0,
    }
}

// The byte of the message at a place.
fn j1(place: u8, characters: [u8; 15]) -> u8
    requires { place ≤ 15 }
    ensures { result ≡ j1_of place characters }
{
    if place == 0 {
        return trace_message::start_byte(&characters);
    }
    characters[usize::from(place - 1)]
}

// The violations in bits 1 to 4, remote defect in bit 5.
fn g1(violations: u8, remote: bool) -> u8
    requires { violations ≤ 8 }
    ensures { result ≡ g1_of violations remote }
{
    if remote {
        return violations * 16 + 8;
    }
    violations * 16
}

// The nine overhead bytes, from the top.
fn overhead(s: State, g: Given, characters: [u8; 15]) -> [u8; 9]
    requires { (s.place ≤ 15) × (g.violations ≤ 8) }
    ensures { result ≡ overhead_of s g characters }
{
    let j = j1(s.place, characters);
    let e = g1(g.violations, g.remote);
    let u = g.unexamined;
    [j, s.parity, g.label, e, u.f2, u.h4, u.f3, u.k3, u.n1]
}

// The answer to a call, by its numbers, its trace, and the lengths of what it is lent.
fn answer(
    shape: Shape,
    place: u8,
    label: u8,
    characters: [u8; 15],
    payload: usize,
    container: usize,
    violations: u8,
) -> Result<(), Refusal>
    ensures { result ≡ answer_of (send_faults (numbers shape) place label characters payload container violations) }
{
    let full = shape.payload_length();
    if 15 < place {
        return Err(Refusal::State);
    }
    settings::path_answer(label, &characters)?;
    if payload != full {
        return Err(Refusal::Payload);
    }
    if container != shape.size {
        return Err(Refusal::Container);
    }
    if 8 < violations {
        return Err(Refusal::Violations);
    }
    Ok(())
}

// One container of any shape.
fn send(
    shape: Shape,
    s: &mut State,
    g: Given,
    characters: &[u8; 15],
    payload: &[u8],
    container: &mut [u8],
) -> Result<(), Refusal>
    ensures { SendsAs (numbers shape) s.old g characters.now payload.now container.old (record { answer = result; state = s.new }) container.new }
{
    let t = *characters;
    let before = *s;
    answer(
        shape,
        before.place,
        g.label,
        t,
        payload.len(),
        container.len(),
        g.violations,
    )?;
    let o = overhead(before, g, t);
    container::rows(shape.columns - 1, o, payload, container);
    let parity = parity::parity(container);
    let place = (before.place + 1) % 16;
    *s = State { place, parity };
    Ok(())
}

// The next VC-4 of a source: all 2349 bytes are written, and its state is the one after it. Refuses 8, 4, 5, 2, 3, 6: then both are as they were.
pub fn container_source(
    s: &mut State,
    g: Given,
    characters: &[u8; 15],
    payload: &[u8],
    container: &mut [u8],
) -> Result<(), Refusal>
    ensures { Sends au4 s.old g characters.now payload.now container.old (record { answer = result; state = s.new }) container.new }
{
    send(Shape::au4(), s, g, characters, payload, container)
}
