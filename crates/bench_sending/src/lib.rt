// The sending half of the bench: a container source and a unit source, a queue of two containers, and what the container source is given.
#![tactic(auto)]

ghost use Rattle.std.specs.Prelude.{◌<◌};

use bench_line::Buffer;
use bench_say::{Fnv, Output};
use container_source::{Given, Unexamined};
use refusals::Refusal;
use shape::Adjustment;

// What the container source is given with each payload.
#[derive(Clone, Copy)]
pub struct Sent {
    pub label: u8,
    pub trace: [u8; 15],
    pub violations: u8,
    pub remote: bool,
}

impl Sent {
    fn given(self) -> Given {
        Given {
            label: self.label,
            unexamined: Unexamined {
                f2: 0x11,
                h4: 0x22,
                f3: 0x33,
                k3: 0x44,
                n1: 0x55,
            },
            violations: self.violations,
            remote: self.remote,
        }
    }

    // What every container will be refused for, in the order in which the container source refuses.
    fn answer(self) -> Result<(), Refusal> {
        let characters = self.trace;
        settings::path_answer(self.label, &characters)?;
        if 8 < self.violations {
            return Err(Refusal::Violations);
        }
        Ok(())
    }

    // `tx`: says at once that every container will be refused, where it will.
    pub fn say_order<P: Print>(self, out: &mut Output<P>) {
        let _ = out.done("tx refused", self.answer());
    }
}

// The payload of a seed.
fn payload(seed: u32) -> [u8; 2340] {
    let mut bytes = [0u8; 2340];
    let mut x = seed;
    for byte in bytes.iter_mut() {
        x = x.wrapping_mul(1664525).wrapping_add(1013904223);
        let [top, _, _, _] = x.to_be_bytes();
        *byte = top;
    }
    bytes
}

// The two sources, the containers that are queued, as many as `queued` says, and the seed of the next payload.
#[derive(Drop)]
pub struct Sender {
    containers: container_source::State,
    units: unit_source::State,
    queue: [[u8; 2349]; 2],
    queued: usize,
    seed: u32,
}

impl Sender {
    pub fn fresh() -> Sender {
        Sender {
            containers: container_source::fresh(),
            units: unit_source::fresh(),
            queue: [[0; 2349]; 2],
            queued: 0,
            seed: 0,
        }
    }

    // The next payload's container, into a place of the queue; none where the source refuses it.
    fn fill_place<P: Print>(&mut self, out: &mut Output<P>, sent: Sent, place: usize) -> Option<()>
        requires { place < 2 }
    {
        let characters = sent.trace;
        let bytes = payload(self.seed);
        let container = &mut self.queue[place];
        let answer = container_source::container_source(
            &mut self.containers,
            sent.given(),
            &characters,
            &bytes,
            container,
        );
        out.done("container refused", answer)?;
        self.seed = self.seed.wrapping_add(1);
        Some(())
    }

    // The queue, filled to two containers.
    fn fill<P: Print>(&mut self, out: &mut Output<P>, sent: Sent) -> Option<()> {
        for place in self.queued..2 {
            self.fill_place(out, sent, place)?;
            self.queued = place + 1;
        }
        Some(())
    }

    // `src`: the queue filled, and the next unit written.
    pub fn send<P: Print>(
        &mut self,
        out: &mut Output<P>,
        sent: Sent,
        adjustment: Adjustment,
        line: &mut Buffer,
    ) {
        if self.fill(out, sent).is_some() {
            line.resize(2358);
            self.write_unit(out, adjustment, line.bytes_mut());
        }
    }

    // The next unit, of the two containers.
    fn write_unit<P: Print>(
        &mut self,
        out: &mut Output<P>,
        adjustment: Adjustment,
        unit: &mut [u8],
    ) {
        let [first, second] = &self.queue;
        let answer = unit_source::unit_source(&mut self.units, adjustment, first, second, unit);
        let Some(ended) = out.done("unit refused", answer) else {
            return;
        };
        say_unit(out, unit, ended, self.units.offset);
        // where one container ended, the second becomes the first
        if ended == 1 {
            self.queue[0] = self.queue[1];
        }
        self.queued = self.queued.saturating_sub(usize::from(ended));
    }
}

// H1 and H2, the word of a unit, in its places 0 and 3.
fn say_unit<P: Print>(out: &mut Output<P>, unit: &[u8], ended: u8, offset: u16) {
    if let [h1, _, _, h2, ..] = unit {
        writeln!(
            out,
            "unit ended={ended} word={h1:02X}{h2:02X} fnv={} off={offset}",
            Fnv(unit),
        );
    }
}
