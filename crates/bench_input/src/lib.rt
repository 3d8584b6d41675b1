// Lines out of standard input, each as soon as its LF has come.
#![tactic(auto)]

ghost use Rattle.std.specs.Prelude.{◌+◌, ◌≤◌};

use std::io;
use std::io::Read;

// One byte more than the longest line, for its LF.
const MOST: usize = 100001;

// What was read and not handed out yet stands in the buffer from `from` to `to`. A line that does not fit is long, and its bytes are dropped. Behind the end of the input
// there is no more to read.
#[derive(Drop)]
pub struct Lines<R> {
    reader: R,
    buffer: [u8; MOST],
    from: usize,
    to: usize,
    long: bool,
    ended: bool,
    ghost within: { (from ≤ to) × (to ≤ 100001) },
}

// A line without its LF.
#[derive(Clone, Copy)]
pub enum Line<'a> {
    Whole(&'a [u8]),
    // of more than 100,000 bytes
    TooLong,
}

impl<R: Read> Lines<R> {
    pub fn new(reader: R) -> Lines<R> {
        Lines {
            reader,
            buffer: [0; MOST],
            from: 0,
            to: 0,
            long: false,
            ended: false,
        }
    }

    // What is under way goes to the front of the buffer; none of it where it fills the buffer, since the line is then too long.
    fn move_front(&mut self) {
        let n = self.to - self.from;
        if n == MOST {
            self.long = true;
            self.from = 0;
            self.to = 0;
            return;
        }
        self.buffer.copy_within(self.from..self.to, 0);
        self.from = 0;
        self.to = n;
    }

    // One read more, behind what is under way.
    fn read_on(&mut self) -> io::Result<()> {
        self.move_front();
        let n = self.reader.read(&mut self.buffer[self.to..])?;
        self.to += n;
        self.ended = n == 0;
        Ok(())
    }

    // The line under way, of n bytes; the next begins behind `taken`.
    fn hand_out(&mut self, n: usize, taken: usize) -> Line<'_>
        requires { (n ≤ taken) × (self.old.from + taken ≤ self.old.to) }
    {
        let start = self.from;
        let long = self.long;
        self.from += taken;
        self.long = false;
        if long {
            return Line::TooLong;
        }
        let all = &*self;
        Line::Whole(&all.buffer[start..start + n])
    }

    // The next line; none behind the last. A proved loop has to end, and nothing says that the input does: so the reads are counted, up to a number that no run comes to.
    pub fn next_line(&mut self) -> io::Result<Option<Line<'_>>> {
        for _ in 0..u64::MAX {
            let under_way = &self.buffer[self.from..self.to];
            let n = under_way.len();
            if let Some(end) = under_way.iter().position(|b| *b == b'\n') {
                return Ok(Some(self.hand_out(end, end + 1)));
            }
            if self.ended {
                if (n == 0) & !self.long {
                    return Ok(None);
                }
                return Ok(Some(self.hand_out(n, n)));
            }
            self.read_on()?;
        }
        Ok(None)
    }
}
