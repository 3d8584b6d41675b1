// The receiving half of the bench: the sink's settings, the sink fed with the line, what it answers in print, and the payload call.
#![tactic(auto)]

use bench_line::Buffer;
use bench_say::{Fnv, Names, Output};
use receiving::{Ended, Told};
use settings::Settings;
use sink::Report;
use std::fmt;
use std::fmt::{Display, Formatter};

// `rx`: says at once that every call with these settings will be refused, where it will.
pub fn say_order<P: Print>(out: &mut Output<P>, e: Settings) {
    let _ = out.done("rx refused", settings::answer(e));
}

// The pointer's state and its offset.
#[derive(Clone, Copy)]
struct Shown(pointer_state::State);

impl Display for Shown {
    fn fmt<W: fmt::Write>(&self, f: &mut Formatter<W>) -> fmt::Result {
        match self.0 {
            pointer_state::State::Normal(offset) => write!(f, "st=normal off={offset}"),
            pointer_state::State::Alarm => write!(f, "st=alarm off=-"),
            pointer_state::State::Lost => write!(f, "st=lost off=-"),
        }
    }
}

// One container that ended: its bytes, as the view has them, and what is told of it.
#[derive(Clone, Copy)]
struct Container<'a> {
    bytes: &'a [u8],
    told: Told,
}

impl Display for Container<'_> {
    fn fmt<W: fmt::Write>(&self, f: &mut Formatter<W>) -> fmt::Result {
        let violated = self.told.violated;
        let violations = overhead::violations(violated);
        write!(f, "{},v={violations}", Fnv(self.bytes))?;
        if 0 < violations {
            write!(f, ",p={violated:02X}")?;
        }
        write!(f, ",fe={}", self.told.returned)
    }
}

// The sink, its held and its done buffer, and the container that it handed back last.
#[derive(Drop)]
pub struct Receiver {
    sink: sink::State,
    held: Buffer,
    done: Buffer,
    last: [u8; 2349],
}

impl Receiver {
    pub fn fresh() -> Receiver {
        Receiver {
            sink: sink::fresh(),
            held: Buffer::of(0, 2349),
            done: Buffer::of(0, 2349),
            last: [0; 2349],
        }
    }

    // `fill`: every byte of held and of done.
    pub fn fill(&mut self, held: u8, done: u8) {
        self.held.bytes_mut().fill(held);
        self.done.bytes_mut().fill(done);
    }

    // `lens`: held and done become so many bytes of AA.
    pub fn resize(&mut self, held: usize, done: usize) {
        self.held = Buffer::of(0xaa, held);
        self.done = Buffer::of(0xaa, done);
    }

    // `sink`: the sink is fed the unit.
    pub fn feed<P: Print>(&mut self, out: &mut Output<P>, settings: Settings, unit: &[u8]) {
        let answer = sink::sink(
            &mut self.sink,
            settings,
            unit,
            self.held.bytes_mut(),
            self.done.bytes_mut(),
        );
        let Some(report) = out.done("refused", answer) else {
            return;
        };
        let ended = report.ended;
        write!(
            out,
            "ok {} held={} ended={}",
            Shown(self.sink.pointer.state),
            self.sink.held,
            ended.number,
        );
        say_containers(out, ended, self.done.bytes(), unit, &mut self.last);
        say_report(out, report, self.sink.total);
        writeln!(
            out,
            " hb={} db={}",
            Fnv(self.held.bytes()),
            Fnv(self.done.bytes()),
        );
    }

    // `payload`: of the container handed back last.
    pub fn payload<P: Print>(&self, out: &mut Output<P>, ais: bool) {
        let mut bytes = [0xeeu8; 2340];
        let answer = container::payload_call(&self.last, ais, &mut bytes);
        if out.done("payload refused", answer).is_some() {
            writeln!(out, "payload fnv={}", Fnv(&bytes));
        }
    }
}

// A container is kept, since the buffer that it lies in will be written again.
fn keep(container: &[u8], last: &mut [u8]) {
    if container.len() == last.len() {
        last.copy_from_slice(container);
    }
}

// The containers that ended, as the view has them: first the one completed, then the one inside. The last is kept.
fn say_containers<'a, P: Print>(
    out: &mut Output<P>,
    ended: Ended,
    done: &'a [u8],
    unit: &'a [u8],
    last: &mut [u8],
) {
    let size = shape::Shape::au4().size;
    if ended.completed {
        let bytes = view::container(ended, size, done, unit, 0);
        let told = ended.first;
        let container = Container { bytes, told };
        write!(out, " c=D@0,{container}");
        keep(bytes, last);
    }
    if ended.inside {
        let bytes = view::container(ended, size, done, unit, usize::from(ended.completed));
        let told = ended.second;
        let container = Container { bytes, told };
        write!(out, " c=U@{},{container}", ended.place);
        keep(bytes, last);
    }
}

// What the sink reports at a unit's end.
fn say_report<P: Print>(out: &mut Output<P>, r: Report, total: u16) {
    let actions = r.actions;
    write!(
        out,
        " ssf={} tsf={} ais={} rdi={}",
        u8::from(actions.ssf),
        u8::from(actions.tsf),
        u8::from(actions.ais),
        u8::from(actions.rdi),
    );
    let defects = r.defects;
    let defects = [
        (defects.uneq, "dUNEQ"),
        (defects.tim, "dTIM"),
        (defects.plm, "dPLM"),
        (defects.rdi, "dRDI"),
    ];
    let causes = r.causes;
    let causes = [
        (causes.ais, "cAIS"),
        (causes.lop, "cLOP"),
        (causes.ssf, "cSSF"),
        (causes.uneq, "cUNEQ"),
        (causes.tim, "cTIM"),
        (causes.rdi, "cRDI"),
        (causes.plm, "cPLM"),
    ];
    write!(out, " d={} cause={}", Names(&defects), Names(&causes));
    write!(out, " settled={} total={total}", u8::from(r.settled),);
}
