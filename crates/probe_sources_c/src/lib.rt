// The functions of the crate `probe_sources` for Rust and C to link. Each is the function of its name there, under the same promise.
#![tactic(auto)]

ghost use Rattle.std.specs.Prelude.{◌≡◌};
ghost use Rattle.shape.specs.Shape.{au4};
ghost use Rattle.container.specs.Payload.{payload_call};
ghost use Rattle.container_source.specs.Source as containers;
ghost use Rattle.container_source.specs.Source.{container_source};
ghost use Rattle.unit_source.specs.Source as units;
ghost use Rattle.unit_source.specs.Source.{unit_source};
ghost use Rattle.probe_sources.specs.Probe.{packed_source, packed_unit, adjustment_by, given_of, Probes, probed_sent, probed_made, probed_handed};

#[unsafe(no_mangle)]
pub extern "C" fn probe_fresh_container() -> u32
    ensures { result ≡ packed_source containers.fresh_container_source }
{
    probe_sources::probe_fresh_container()
}

#[unsafe(no_mangle)]
pub extern "C" fn probe_container(
    payload: &[u8],
    container: &mut [u8],
    characters: &[u8; 15],
    place: u8,
    parity: u8,
    label: u8,
    f2: u8,
    h4: u8,
    f3: u8,
    k3: u8,
    n1: u8,
    violations: u8,
    remote: bool,
) -> u32
    ensures { Probes result container.new (probed_sent (container_source au4 (record { place = place; parity = parity }) (given_of label f2 h4 f3 k3 n1 violations remote) characters.now payload.now container.old)) }
{
    probe_sources::probe_container(
        payload, container, characters, place, parity, label, f2, h4, f3, k3, n1, violations,
        remote,
    )
}

#[unsafe(no_mangle)]
pub extern "C" fn probe_fresh_unit() -> u64
    ensures { result ≡ packed_unit units.fresh_unit_source }
{
    probe_sources::probe_fresh_unit()
}

#[unsafe(no_mangle)]
pub extern "C" fn probe_unit(
    current: &[u8],
    next: &[u8],
    unit: &mut [u8],
    offset: u16,
    wait: u8,
    asked: u8,
) -> u64
    ensures { Probes result unit.new (probed_made (unit_source au4 (record { offset = offset; wait = wait }) (adjustment_by asked) current.now next.now unit.old)) }
{
    probe_sources::probe_unit(current, next, unit, offset, wait, asked)
}

#[unsafe(no_mangle)]
pub extern "C" fn probe_payload(container: &[u8], payload: &mut [u8], ais: bool) -> u8
    ensures { Probes result payload.new (probed_handed (payload_call au4 container.now ais payload.old)) }
{
    probe_sources::probe_payload(container, payload, ais)
}
