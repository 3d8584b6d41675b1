// Commands that ask and change nothing: the catalogue's three, its import and export, and the host's three functions.
#![tactic(auto)]

use bench_say::{Hex, Numbered, Output};

#[derive(Clone, Copy)]
enum Question {
    Cat,
    List,
    Import,
    Export,
    Parity,
    Check,
    Read,
    Lookup(u32),
}

impl Question {
    fn named(name: &[u8]) -> Option<Question> {
        match name {
            b"cat" => Some(Question::Cat),
            b"list" => Some(Question::List),
            b"import" => Some(Question::Import),
            b"export" => Some(Question::Export),
            b"parity" => Some(Question::Parity),
            b"check" => Some(Question::Check),
            b"read" => Some(Question::Read),
            _ => None,
        }
    }

    // The question that a line asks, and the bytes that it asks about, in hex.
    fn of<'a>(words: &[&'a [u8]]) -> Option<(Question, &'a [u8])> {
        match words {
            [b"lookup", number] => Some((Question::lookup(number)?, b"")),
            [b"lookup", number, hex] => Some((Question::lookup(number)?, hex)),
            [name] => Some((Question::named(name)?, b"")),
            [name, hex] => Some((Question::named(name)?, hex)),
            _ => None,
        }
    }

    fn lookup(number: &[u8]) -> Option<Question> {
        let number = bench_script::decimal(number, 999999999)?;
        Some(Question::Lookup(number))
    }

    fn answer<P: Print>(self, out: &mut Output<P>, s: &[u8]) {
        match self {
            Question::Cat => check(out, s),
            Question::List => list(out, s),
            Question::Import => import(out, s),
            Question::Export => export(out, s),
            Question::Parity => writeln!(out, "parity {:02X}", parity::parity(s)),
            Question::Check => writeln!(out, "check {}", u8::from(trace_message::trace_check(s))),
            Question::Read => writeln!(out, "read {}", word::reading(s)),
            Question::Lookup(number) => look_up(out, number, s),
        }
    }
}

fn numbered(x: records::Refusal) -> Numbered {
    Numbered {
        number: x.number(),
        places: x.places().numbers(),
    }
}

fn check<P: Print>(out: &mut Output<P>, s: &[u8]) {
    let c = catalogue::check(s);
    match c.checked {
        Ok(n) => write!(out, "cat ok {n}"),
        Err(x) => write!(out, "cat refused {}", numbered(x)),
    }
    writeln!(out, " pairs={}", c.pairs);
}

fn look_up<P: Print>(out: &mut Output<P>, number: u32, s: &[u8]) {
    match catalogue::lookup(s, number) {
        Ok(entry) => writeln!(
            out,
            "found {:02X} {} {}",
            entry.label,
            Hex(&entry.trace),
            entry.flags,
        ),
        Err(x) => writeln!(out, "lookup refused {}", numbered(x)),
    }
}

fn list<P: Print>(out: &mut Output<P>, s: &[u8]) {
    let mut made = [0u8; 15898];
    let n = listing::list(s, &mut made);
    out.bytes(&made[..n]);
}

// What was asked for and good: bytes, which may be none.
fn say_bytes<P: Print>(out: &mut Output<P>, what: &str, s: &[u8]) {
    if s.is_empty() {
        writeln!(out, "{what}");
    } else {
        writeln!(out, "{what} {}", Hex(s));
    }
}

fn import<P: Print>(out: &mut Output<P>, s: &[u8]) {
    let mut made = [0u8; 10752];
    match importing::import(s, &mut made) {
        Ok(k) => {
            let n = 21 * k;
            say_bytes(out, "import ok", &made[..n]);
        }
        Err(x) => {
            let why = Numbered {
                number: x.number(),
                places: x.places().numbers(),
            };
            writeln!(out, "import refused {why}");
        }
    }
}

fn export<P: Print>(out: &mut Output<P>, s: &[u8]) {
    let mut made = [0u8; 23552];
    match exporting::export(s, &mut made) {
        Ok(n) => say_bytes(out, "export ok", &made[..n]),
        Err(x) => writeln!(out, "export refused {}", numbered(x)),
    }
}

// A question is answered; none where its bytes are not understood. The buffer, for all the bytes that the longest line can give, is filled at each call: so a line that asks
// nothing does not come here.
fn answer_in_hex<P: Print>(out: &mut Output<P>, question: Question, hex: &[u8]) -> Option<()> {
    let mut bytes = [0u8; 50000];
    question.answer(out, bench_script::bytes(hex, &mut bytes)?);
    Some(())
}

// The question that a line asks is answered; none where it asks none.
pub fn answer<P: Print>(out: &mut Output<P>, words: &[&[u8]]) -> Option<()> {
    let (question, hex) = Question::of(words)?;
    answer_in_hex(out, question, hex)
}
