// What the bench prints, a line or a part of one at a time. Nothing of the card rests on this crate, nor on the bench's others.
// What standard output does not take is lost; `failure` says that there was some.
#![tactic(auto)]

use refusals::Refusal;
use std::fmt::{Display, Formatter};
use std::io::ErrorKind;
use std::{fmt, io};

// Where the bench prints: standard output, and why it has not taken the first piece that it did not take.
#[derive(Drop)]
pub struct Output<P> {
    to: P,
    failure: Option<ErrorKind>,
}

impl<P: Print> Output<P> {
    pub fn new(to: P) -> Output<P> {
        Output { to, failure: None }
    }

    fn note(&mut self, taken: io::Result<()>) {
        if let Err(e) = taken {
            if self.failure.is_none() {
                self.failure = Some(e.kind());
            }
        }
    }

    // What `write!` and `writeln!` call.
    pub fn write_fmt<D: Display + Drop>(&mut self, piece: D) {
        let taken = self.to.print(piece);
        self.note(taken);
    }

    // Bytes as they are.
    pub fn bytes(&mut self, piece: &[u8]) {
        let taken = self.to.write_all(piece);
        self.note(taken);
    }

    // Why a piece was not taken, where one was not so far.
    pub fn failure(&self) -> Option<ErrorKind> {
        self.failure
    }

    // What a call answers; where it is refused, that is said.
    pub fn done<T: Drop>(&mut self, refused: &str, answer: Result<T, Refusal>) -> Option<T> {
        match answer {
            Ok(answer) => Some(answer),
            Err(why) => {
                let why = Numbered {
                    number: refusals::number(Err(why)),
                    places: (refusals::place(Err(why)), 0),
                };
                writeln!(self, "{refused} {why}");
                None
            }
        }
    }
}

// A refusal's number, and behind it the places that it names, at most two, 0 for none.
#[derive(Clone, Copy)]
pub struct Numbered {
    pub number: u8,
    pub places: (usize, usize),
}

impl Display for Numbered {
    fn fmt<W: fmt::Write>(&self, f: &mut Formatter<W>) -> fmt::Result {
        write!(f, "{}", self.number)?;
        let (first, second) = self.places;
        for place in [first, second] {
            if 0 < place {
                write!(f, " {place}")?;
            }
        }
        Ok(())
    }
}

// Bytes in hex, two capital digits each.
#[derive(Clone, Copy)]
pub struct Hex<'a>(pub &'a [u8]);

impl Display for Hex<'_> {
    fn fmt<W: fmt::Write>(&self, f: &mut Formatter<W>) -> fmt::Result {
        for byte in self.0 {
            write!(f, "{byte:02X}")?;
        }
        Ok(())
    }
}

// 32-bit FNV-1a of bytes, in eight capital digits.
#[derive(Clone, Copy)]
pub struct Fnv<'a>(pub &'a [u8]);

impl Display for Fnv<'_> {
    fn fmt<W: fmt::Write>(&self, f: &mut Formatter<W>) -> fmt::Result {
        let mut hash = 2166136261u32;
        for byte in self.0 {
            hash = (hash ^ u32::from(*byte)).wrapping_mul(16777619);
        }
        write!(f, "{hash:08X}")
    }
}

// Of a list of names those that stand, a comma between them; - where none does.
#[derive(Clone, Copy)]
pub struct Names<'a>(pub &'a [(bool, &'a str)]);

impl Display for Names<'_> {
    fn fmt<W: fmt::Write>(&self, f: &mut Formatter<W>) -> fmt::Result {
        let mut any = false;
        for (stands, name) in self.0 {
            if *stands {
                let comma = if any { "," } else { "" };
                write!(f, "{comma}{name}")?;
                any = true;
            }
        }
        if any { Ok(()) } else { write!(f, "-") }
    }
}
