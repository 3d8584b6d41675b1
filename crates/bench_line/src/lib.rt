// Commands about the line, the unit under way: its word overwritten, a byte damaged, all ones, its length, its bytes shown. And the buffers that the bench holds.
#![tactic(auto)]

ghost use Rattle.std.specs.Prelude.{◌≤◌, ◌≡◌, length};

use bench_say::{Hex, Output};

const MOST: usize = 4096;

// Up to 4096 bytes: as many as `length` says.
#[derive(Drop)]
pub struct Buffer {
    bytes: [u8; MOST],
    length: usize,
}

impl Buffer {
    // So many bytes, all the same.
    pub fn of(byte: u8, length: usize) -> Buffer {
        Buffer {
            bytes: [byte; MOST],
            length,
        }
    }

    pub fn bytes(&self) -> &[u8] {
        &self.bytes[..self.length.min(MOST)]
    }

    pub fn bytes_mut(&mut self) -> &mut [u8] {
        let length = self.length.min(MOST);
        &mut self.bytes[..length]
    }

    // Cut, or lengthened with 00.
    pub fn resize(&mut self, length: usize) {
        let length = length.min(MOST);
        if self.length < length {
            self.bytes[self.length..length].fill(0);
        }
        self.length = length;
    }
}

// The commands.
#[derive(Clone, Copy)]
pub enum Command {
    // H1 and H2
    Word(u8, u8),
    // a place, and what its byte is exclusive-ored with
    Xor(usize, u8),
    Ones,
    Len(usize),
    Show,
}

impl Command {
    pub fn of(words: &[&[u8]]) -> Option<Command> {
        match words {
            [b"word", word] => {
                let [high, low] = bench_script::exactly::<2>(word)?;
                Some(Command::Word(high, low))
            }
            [b"xor", place, byte] => {
                let place = bench_script::decimal(place, 4095)?;
                let [byte] = bench_script::exactly::<1>(byte)?;
                Some(Command::Xor(place as usize, byte))
            }
            [b"ones"] => Some(Command::Ones),
            [b"len", length] => Some(Command::Len(bench_script::decimal(length, 4096)? as usize)),
            [b"show"] => Some(Command::Show),
            _ => None,
        }
    }

    // Nothing is changed where the line is too short for it.
    pub fn play<P: Print>(self, out: &mut Output<P>, line: &mut Buffer) -> Option<()> {
        match self {
            Command::Word(high, low) => {
                let [h1, _, _, h2, ..] = line.bytes_mut() else {
                    return None;
                };
                *h1 = high;
                *h2 = low;
            }
            Command::Xor(place, byte) => *line.bytes_mut().get_mut(place)? ^= byte,
            Command::Ones => line.bytes_mut().fill(0xff),
            Command::Len(length) => line.resize(length),
            Command::Show => writeln!(out, "line {}", Hex(line.bytes())),
        }
        Some(())
    }
}
