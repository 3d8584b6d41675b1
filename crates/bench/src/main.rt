// The bench: reads a script on standard input and plays each line on a container source, a unit source, a line and a sink as soon as it has come. docs/BENCH.md has the language.
// Its work is in the libraries; here a line of the script is understood and one of them called.
#![tactic(auto)]

use bench_hearing::Receiver;
use bench_input::{Line, Lines};
use bench_line::Buffer;
use bench_say::Output;
use bench_script::Words;
use bench_sending::{Sender, Sent};
use programs::Program;
use settings::Settings;
use shape::Adjustment;
use std::io::Read;

// The commands that are neither questions nor about the line.
#[derive(Clone, Copy)]
enum Command {
    Fresh,
    Fill { held: u8, done: u8 },
    Lens { held: usize, done: usize },
    Tx(Sent),
    Rx(Settings),
    Src(Adjustment),
    Sink,
    Payload { ais: bool },
    Run(u32),
}

impl Command {
    fn of(words: &[&[u8]]) -> Option<Command> {
        match words {
            [b"fresh"] => Some(Command::Fresh),
            [b"fill", held, done] => {
                let [held] = bench_script::exactly::<1>(held)?;
                let [done] = bench_script::exactly::<1>(done)?;
                Some(Command::Fill { held, done })
            }
            [b"lens", held, done] => {
                let held = bench_script::decimal(held, 4096)? as usize;
                let done = bench_script::decimal(done, 4096)? as usize;
                Some(Command::Lens { held, done })
            }
            [b"tx", label, trace, violations, remote] => {
                Some(Command::Tx(tx(label, trace, violations, remote)?))
            }
            [b"rx", label, trace, flags] => Some(Command::Rx(rx(label, trace, flags)?)),
            [b"src", b"-"] => Some(Command::Src(Adjustment::Nothing)),
            [b"src", b"i"] => Some(Command::Src(Adjustment::Increment)),
            [b"src", b"d"] => Some(Command::Src(Adjustment::Decrement)),
            [b"sink"] => Some(Command::Sink),
            [b"payload", ais] => {
                let ais = bench_script::decimal(ais, 1)? == 1;
                Some(Command::Payload { ais })
            }
            [b"run", times] => {
                let times = bench_script::decimal(times, 9999)?;
                (0 < times).then_some(Command::Run(times))
            }
            _ => None,
        }
    }
}

fn tx(label: &[u8], trace: &[u8], violations: &[u8], remote: &[u8]) -> Option<Sent> {
    let [label] = bench_script::exactly::<1>(label)?;
    let trace = bench_script::trace(trace)?;
    let violations = u8::try_from(bench_script::decimal(violations, 255)?).ok()?;
    let remote = bench_script::decimal(remote, 1)? == 1;
    Some(Sent {
        label,
        trace,
        violations,
        remote,
    })
}

fn rx(label: &[u8], trace: &[u8], flags: &[u8]) -> Option<Settings> {
    let [label] = bench_script::exactly::<1>(label)?;
    let trace = bench_script::trace(trace)?;
    let flags = u8::try_from(bench_script::decimal(flags, 15)?).ok()?;
    Some(Settings {
        label,
        trace,
        flags: settings::flags_of(flags),
    })
}

// The two ends, with what each is set to, and the line between them.
#[derive(Drop)]
struct Bench {
    sent: Sent,
    settings: Settings,
    sender: Sender,
    line: Buffer,
    receiver: Receiver,
}

impl Bench {
    fn new() -> Bench {
        let label = 0x12;
        let trace = *b"03E5           ";
        Bench {
            sent: Sent {
                label,
                trace,
                violations: 0,
                remote: false,
            },
            settings: Settings {
                label,
                trace,
                flags: settings::flags_of(0),
            },
            sender: Sender::fresh(),
            line: Buffer::of(0, 2358),
            receiver: Receiver::fresh(),
        }
    }

    // The settings stay.
    fn refresh(&mut self) {
        self.sender = Sender::fresh();
        self.line = Buffer::of(0, 2358);
        self.receiver = Receiver::fresh();
    }

    fn send<P: Print>(&mut self, out: &mut Output<P>, adjustment: Adjustment) {
        self.sender.send(out, self.sent, adjustment, &mut self.line);
    }

    fn feed<P: Print>(&mut self, out: &mut Output<P>) {
        self.receiver.feed(out, self.settings, self.line.bytes());
    }

    fn play<P: Print>(&mut self, out: &mut Output<P>, command: Command) {
        match command {
            Command::Fresh => self.refresh(),
            Command::Fill { held, done } => self.receiver.fill(held, done),
            Command::Lens { held, done } => self.receiver.resize(held, done),
            Command::Tx(sent) => {
                self.sent = sent;
                sent.say_order(out);
            }
            Command::Rx(settings) => {
                self.settings = settings;
                bench_hearing::say_order(out, settings);
            }
            Command::Src(adjustment) => self.send(out, adjustment),
            Command::Sink => self.feed(out),
            Command::Payload { ais } => self.receiver.payload(out, ais),
            Command::Run(times) => {
                for _ in 0..times {
                    self.send(out, Adjustment::Nothing);
                    self.feed(out);
                }
            }
        }
    }

    // A line's words: a question, a command about the line, or one of the others. None where they are not understood.
    fn play_words<P: Print>(&mut self, out: &mut Output<P>, words: &[&[u8]]) -> Option<()> {
        if words.is_empty() {
            return Some(());
        }
        if let Some(answered) = bench_asking::answer(out, words) {
            return Some(answered);
        }
        if let Some(command) = bench_line::Command::of(words) {
            return command.play(out, &mut self.line);
        }
        self.play(out, Command::of(words)?);
        Some(())
    }

    fn play_line<P: Print>(
        &mut self,
        out: &mut Output<P>,
        line: Line<'_>,
        is_first: bool,
    ) -> Option<()> {
        match line {
            Line::TooLong => None,
            Line::Whole(line) => self.play_words(out, Words::of(line, is_first).as_slice()),
        }
    }
}

// The lines of standard input. They are counted, up to a number that no run comes to, so that the loop is seen to end.
fn play<P: Print, E: Print, R: Read>(
    out: &mut Output<P>,
    program: &Program<E>,
    lines: &mut Lines<R>,
) {
    let mut bench = Bench::new();
    for number in 1..=u64::MAX {
        let line = match lines.next_line() {
            Ok(Some(line)) => line,
            Ok(None) => return,
            Err(_) => {
                program.cannot_read();
                return;
            }
        };
        if bench.play_line(out, line, number == 1).is_none() {
            writeln!(out, "? {number}");
        }
        if let Some(why) = out.failure() {
            program.cannot_write(why);
            return;
        }
    }
}

fn main(rt: HostRuntime) {
    let program = Program::new("bench", rt.stderr());
    if program.says_usage(
        &rt,
        "usage: bench < SCRIPT, or bench alone, to type at it\nplays a script on a source, a line and a sink, and prints what they answer; docs/BENCH.md has its language",
    ) {
        return;
    }
    let mut out = Output::new(rt.stdout());
    let mut lines = Lines::new(rt.stdin());
    play(&mut out, &program, &mut lines);
}
