// For tests and benchmarks only: the sources and the payload call, as functions that Rust and C can link.
// States and answers become numbers by the definitions of specs/Probe.antt. Nothing of the card rests on this crate.
#![tactic(auto)]

ghost use Rattle.std.specs.Prelude.{◌≡◌, ◌%◌, ◌<◌};
ghost use Rattle.shape.specs.Shape.{au4};
ghost use Rattle.container.specs.Payload.{payload_call};
ghost use Rattle.container_source.specs.Source as containers;
ghost use Rattle.container_source.specs.Source.{container_source};
ghost use Rattle.unit_source.specs.Source as units;
ghost use Rattle.unit_source.specs.Source.{made_by, unit_source};
ghost use Rattle.probe_sources.specs.Probe.{packed_source, packed_sent, packed_unit, packed_made, adjustment_by, given_of, Probes, probed_sent, probed_made, probed_handed};

use container_source::{Given, Unexamined};
use refusals::Refusal;
use shape::Adjustment;

fn pack_source(s: container_source::State) -> u32
    ensures { (result ≡ packed_source s) × (result < 65536) }
{
    s.place as u32 * 256 + s.parity as u32
}

// The place that a refusal names, in a byte; 0 where it names none.
fn pack_place(p: usize) -> u32
    ensures { (result ≡ p % 256) × (result < 256) }
{
    (p % 256) as u32
}

fn pack_sent(a: Result<(), Refusal>, s: container_source::State) -> u32
    ensures { result ≡ packed_sent (record { answer = a; state = s }) }
{
    pack_place(refusals::place(a)) * 16777216 + refusals::number(a) as u32 * 65536 + pack_source(s)
}

// The state of a container source that has sent nothing.
pub fn probe_fresh_container() -> u32
    ensures { result ≡ packed_source containers.fresh_container_source }
{
    pack_source(container_source::fresh())
}

// The container source.
pub fn probe_container(
    payload: &[u8],
    container: &mut [u8],
    characters: &[u8; 15],
    place: u8,
    parity: u8,
    label: u8,
    f2: u8,
    h4: u8,
    f3: u8,
    k3: u8,
    n1: u8,
    violations: u8,
    remote: bool,
) -> u32
    ensures { Probes result container.new (probed_sent (container_source au4 (record { place = place; parity = parity }) (given_of label f2 h4 f3 k3 n1 violations remote) characters.now payload.now container.old)) }
{
    let mut s = container_source::State { place, parity };
    let unexamined = Unexamined { f2, h4, f3, k3, n1 };
    let g = Given {
        label,
        unexamined,
        violations,
        remote,
    };
    let a = container_source::container_source(&mut s, g, characters, payload, container);
    pack_sent(a, s)
}

fn pack_unit(s: unit_source::State) -> u64
    ensures { (result ≡ packed_unit s) × (result < 16777216) }
{
    s.offset as u64 * 256 + s.wait as u64
}

fn pack_made(a: Result<u8, Refusal>, s: unit_source::State) -> u64
    ensures { result ≡ packed_made (made_by a s) }
{
    match a {
        Ok(ended) => ended as u64 * 16777216 + pack_unit(s),
        Err(x) => refusals::number(Err(x)) as u64 * 4294967296 + pack_unit(s),
    }
}

// The state of a unit source that has sent nothing.
pub fn probe_fresh_unit() -> u64
    ensures { result ≡ packed_unit units.fresh_unit_source }
{
    pack_unit(unit_source::fresh())
}

// Kept: a number for what is asked, since C can be handed no enum.
fn adjustment(asked: u8) -> Adjustment
    ensures { result ≡ adjustment_by asked }
{
    if asked == 0 {
        return Adjustment::Nothing;
    }
    if asked == 1 {
        return Adjustment::Increment;
    }
    Adjustment::Decrement
}

// The unit source: asked 0 for nothing, 1 for an increment, any other number for a decrement.
pub fn probe_unit(
    current: &[u8],
    next: &[u8],
    unit: &mut [u8],
    offset: u16,
    wait: u8,
    asked: u8,
) -> u64
    ensures { Probes result unit.new (probed_made (unit_source au4 (record { offset = offset; wait = wait }) (adjustment_by asked) current.now next.now unit.old)) }
{
    let mut s = unit_source::State { offset, wait };
    let a = unit_source::unit_source(&mut s, adjustment(asked), current, next, unit);
    pack_made(a, s)
}

// The payload call.
pub fn probe_payload(container: &[u8], payload: &mut [u8], ais: bool) -> u8
    ensures { Probes result payload.new (probed_handed (payload_call au4 container.now ais payload.old)) }
{
    refusals::number(container::payload_call(container, ais, payload))
}
