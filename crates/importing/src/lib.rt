// The import of comma-separated text into a lent catalogue. What it is stands in specs/Import.antt, one line in the crate `sheet_line`, and its refusals in `sheet_refusals`;
// specs/Inner.antt has what the functions inside answer. The program `import` prints what it gives.
#![tactic(auto)]

ghost use Rattle.std.specs.Prelude.{◌≡◌, [], ◌*◌, ◌≤◌, length, Ok, MatchOption};
ghost use Rattle.text.specs.Inner.{Written};
ghost use Rattle.text.specs.InnerWriting.{HasRoom, Wrote};
ghost use Rattle.importing.specs.Import.{lines_of, most_lines, faults_from, first_of, result_of, Imports};
ghost use Rattle.importing.specs.Inner.{Parts, Made};

use sheet_refusals::Refusal;
use text::Writer;

const LF: u8 = 0x0a;

// Lines in a text, at most.
const MOST: usize = 512;

// The first line of a text, without its LF, whether one ends it, and what stands behind it; none where nothing is left.
fn next(s: &[u8]) -> Option<(&[u8], bool, &[u8])>
    ensures { MatchOption result (lines_of s.now ≡ []) (λ p. Parts s.now p.0.now p.1 p.2.now) }
{
    if s.is_empty() {
        return None;
    }
    let line = split::before(s, LF);
    Some((line, line.len() < s.len(), split::behind(s, LF)))
}

// How many lines the text has.
fn lines(s: &[u8]) -> usize
    ensures { result ≡ length (lines_of s.now) }
{
    let mut n = 0;
    let mut rest = s;
    while let Some((_, _, further)) = next(rest) {
        n += 1;
        rest = further;
    }
    n
}

// What is wrong first with its lines, line by line.
fn first_fault(s: &[u8]) -> Result<(), Refusal>
    ensures { result ≡ first_of (faults_from 0 (lines_of s.now)) }
{
    let mut k = 0;
    let mut rest = s;
    while let Some((line, ended, further)) = next(rest) {
        k += 1;
        if let Err(x) = sheet_line::answer(line, ended) {
            return Err(Refusal::Line(x, k));
        }
        rest = further;
    }
    Ok(())
}

// A text with whose lines nothing is wrong, neither with how many they are nor with one of them.
#[derive(Clone, Copy)]
struct Sheet<'a> {
    bytes: &'a [u8],
    ghost few: { length (lines_of bytes.now) ≤ most_lines },
    ghost sound: { first_of (faults_from 0 (lines_of bytes.now)) ≡ Ok tt },
}

impl<'a> Sheet<'a> {
    // The records that its lines say.
    fn records(self, w: &mut Writer)
        requires { HasRoom (21 * length (lines_of self.bytes.now)) w.old }
        ensures { Wrote (result_of self.entry.bytes.now) w.old w.new }
    {
        let mut rest = self.bytes;
        while let Some((line, _, further)) = next(rest) {
            sheet_line::record(w, line);
            rest = further;
        }
    }

    // The same from the start of a buffer on; the answer is how many bytes they are.
    fn made_in(self, out: &mut [u8; 10752]) -> usize
        ensures { Written 0 (result_of self.entry.bytes.now) out.old out.new result }
    {
        let mut w = Writer { out, at: 0 };
        self.records(&mut w);
        w.at
    }

    // The catalogue that its lines say, made apart and checked, and then copied to the lent buffer where it is good.
    fn made(self, out: &mut [u8; 10752]) -> Result<usize, Refusal>
        ensures { Made (result_of self.entry.bytes.now) out.old out.new result }
    {
        let mut b = [0u8; 10752];
        let n = self.made_in(&mut b);
        let k = catalogue::check(&b[..n]).checked?;
        copier::copy_at(&b[..n], out, 0);
        Ok(k)
    }
}

// The import of a text into a lent catalogue, from its start on; the rest of the buffer keeps its bytes. The answer is how many records the catalogue has. What is refused
// leaves the buffer as it was.
pub fn import(s: &[u8], out: &mut [u8; 10752]) -> Result<usize, Refusal>
    ensures { Imports s.now out.old out.new result }
{
    if MOST < lines(s) {
        return Err(Refusal::TooMany);
    }
    first_fault(s)?;
    Sheet { bytes: s }.made(out)
}
