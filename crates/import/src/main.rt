// Imports comma-separated text from standard input: prints the catalogue, or for a refused text the one line of its refusal.
#![tactic(auto)]

use programs::{InWords, Program};
use sheet_line::LineFault;
use sheet_refusals::Refusal;
use std::fmt;
use std::fmt::{Display, Formatter};
use std::io::Read;

const LF: u8 = b'\n';

// How many lines were read so far: their LFs, and whether a line is under way behind the last.
#[derive(Clone, Copy)]
struct Lines {
    ended: usize,
    open: bool,
}

impl Lines {
    // Those of a text.
    fn of(text: &[u8]) -> Lines {
        let mut lines = Lines {
            ended: 0,
            open: false,
        };
        lines.go_on(text);
        lines
    }

    fn go_on(&mut self, piece: &[u8]) {
        if let Some(last) = piece.last() {
            let ended = piece.iter().filter(|b| **b == LF).count();
            self.ended = self.ended.saturating_add(ended);
            self.open = *last != LF;
        }
    }

    // The rest of a text is read a piece at a time, and not kept.
    fn read_rest<R: Read>(&mut self, input: &mut R) {
        for _ in 0..u64::MAX {
            let mut piece = [0u8; 4096];
            let n = programs::read_full(input, &mut piece);
            if n == 0 {
                return;
            }
            self.go_on(&piece[..n]);
        }
    }

    fn are_too_many(self) -> bool {
        512 < self.ended.saturating_add(usize::from(self.open))
    }
}

// Why a text is refused, in words.
#[derive(Clone, Copy)]
struct TextInWords(Refusal);

impl Display for TextInWords {
    fn fmt<W: fmt::Write>(&self, f: &mut Formatter<W>) -> fmt::Result {
        match self.0 {
            Refusal::TooMany => write!(f, "line 513: more than 512 lines"),
            Refusal::Line(LineFault::Malformed, line) => write!(
                f,
                "line {line}: malformed, longer than 80 bytes, or not ended by LF",
            ),
            Refusal::Line(LineFault::Unquoted, line) => {
                write!(f, "line {line}: the trace is not in double quotes")
            }
            Refusal::Line(LineFault::Long, line) => {
                write!(f, "line {line}: the trace has more than 15 characters")
            }
            Refusal::Catalogue(why) => {
                let words = InWords { what: "line", why };
                write!(f, "{words}")
            }
        }
    }
}

fn refuse<E: Print>(program: &Program<E>, out: &impl Print, why: Refusal) {
    program.refuse(out, why.number(), why.places(), TextInWords(why));
}

fn import<E: Print>(program: &Program<E>, out: &impl Print, text: &[u8]) {
    let mut catalogue = [0u8; 10752];
    match importing::import(text, &mut catalogue) {
        Ok(k) => {
            let n = 21 * k;
            program.print(out, &catalogue[..n]);
        }
        Err(why) => refuse(program, out, why),
    }
}

fn main(rt: HostRuntime) {
    let program = Program::new("import", rt.stderr());
    if program.says_usage(
        &rt,
        "usage: import < TEXT > CATALOGUE\nTEXT has lines as 7,12,\"03E5\",15: circuit number, label in two hex digits, trace in double quotes, flags\nprints the catalogue; for a refused text one line instead, the refusal's number and the places, and says it in words here",
    ) {
        return;
    }
    let mut input = rt.stdin();
    let out = rt.stdout();
    // One byte more than 512 lines of 80 bytes and their LFs. A longer text has more than 512 lines, or a line that is too long among these bytes:
    // of the rest only the number of its lines counts.
    let mut text = [0u8; 41473];
    let n = programs::read_full(&mut input, &mut text);
    let mut lines = Lines::of(&text[..n]);
    lines.read_rest(&mut input);
    if !programs::ended(&mut input) {
        program.cannot_read();
        return;
    }
    if lines.are_too_many() {
        refuse(&program, &out, Refusal::TooMany);
        return;
    }
    import(&program, &out, &text[..n]);
}
