// A container's rows, written and read, and the payload call. The definitions stand in specs/: Container (the layout), Payload (the call).
// proofs/Places.antt says where each byte lies. The container source rests on this crate, and what the monitor sees of a container.
#![tactic(auto)]

ghost use Rattle.std.specs.Prelude.{◌≡◌, ◌+◌, ◌*◌, length};
ghost use Rattle.shape.specs.Shape.{au4};
ghost use Rattle.shape.specs.Numbers.{numbers};
ghost use Rattle.refusals.specs.Refusals.{answer_of};
ghost use Rattle.container.specs.Container.{rows_of, strip_of};
ghost use Rattle.container.specs.Payload.{payload_faults, HandsAs, Hands};

use refusals::Refusal;
use shape::Shape;

// Each overhead byte and its row of payload, from the top.
pub fn rows(width: usize, overhead: [u8; 9], payload: &[u8], container: &mut [u8])
    requires { (length payload.now ≡ 9 * width) × (length container.old ≡ length payload.now + 9) }
    ensures { container.new ≡ rows_of width overhead payload.now }
{
    for (row, byte) in overhead.iter().enumerate() {
        let from = row * width;
        let to = row * (width + 1);
        container[to] = *byte;
        let start = to + 1;
        copier::copy(
            &payload[from..from + width],
            &mut container[start..start + width],
        );
    }
}

// Each row without its overhead byte.
fn strip(width: usize, container: &[u8], payload: &mut [u8])
    requires { (length payload.old ≡ 9 * width) × (length container.now ≡ length payload.old + 9) }
    ensures { payload.new ≡ strip_of width 9 container.now }
{
    for row in 0..9 {
        let to = row * width;
        let from = row * (width + 1) + 1;
        copier::copy(&container[from..from + width], &mut payload[to..to + width]);
    }
}

// The answer to a payload call, by the lengths of what it is lent.
fn payload_answer(shape: Shape, container: usize, payload: usize) -> Result<(), Refusal>
    ensures { result ≡ answer_of (payload_faults (numbers shape) container payload) }
{
    let full = shape.payload_length();
    if container != shape.size {
        return Err(Refusal::Container);
    }
    if payload != full {
        return Err(Refusal::Payload);
    }
    Ok(())
}

// The payload of a container of any shape, all ones in its place where `ais` asks for it.
fn hand(shape: Shape, container: &[u8], ais: bool, payload: &mut [u8]) -> Result<(), Refusal>
    ensures { HandsAs (numbers shape) container.now ais payload.old result payload.new }
{
    payload_answer(shape, container.len(), payload.len())?;
    if ais {
        copier::fill(payload, 0xff);
        return Ok(());
    }
    strip(shape.columns - 1, container, payload);
    Ok(())
}

// The payload of a VC-4, or 2340 of FF where AIS is asked for. Refuses 3, 2.
pub fn payload_call(container: &[u8], ais: bool, payload: &mut [u8]) -> Result<(), Refusal>
    ensures { Hands au4 container.now ais payload.old result payload.new }
{
    hand(Shape::au4(), container, ais, payload)
}
