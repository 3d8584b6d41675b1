// One line of the text that is imported, without its LF: what is wrong with it, and the record that it says, written into a lent buffer.
// How a line is written stands in specs/Grammar.antt, how it is taken apart in specs/Line.antt.
#![tactic(auto)]

ghost use Rattle.std.specs.Prelude.{◌≡◌, drop};
ghost use Rattle.text.specs.InnerWriting.{HasRoom, Wrote};
ghost use Rattle.digits.specs.Digits.{value_from};
ghost use Rattle.sheet_line.specs.Line.{number_field, label_field, trace_on, quoted, characters, behind_comma, flags_field, well_formed, line_faults, line_judged, padded, front_of, record_of};
ghost use Rattle.sheet_line.specs.Inner.{Sound};

use text::Writer;

// What may be wrong with a line, in the order in which it is looked for.
#[derive(Clone, Copy, PartialEq, Eq)]
pub enum LineFault {
    // written in another way than ask 1 has it, or longer than 80 bytes, or ended by no LF
    Malformed,
    // a trace that opens without a quote
    Unquoted,
    // a trace of more than 15 characters
    Long,
}

const COMMA: u8 = 0x2c;

const QUOTE: u8 = 0x22;

fn label_field(s: &[u8]) -> &[u8]
    ensures { result.now ≡ label_field s.now }
{
    split::before(split::behind(s, COMMA), COMMA)
}

fn trace_on(s: &[u8]) -> &[u8]
    ensures { result.now ≡ trace_on s.now }
{
    split::behind(split::behind(s, COMMA), COMMA)
}

fn is_quoted(s: &[u8]) -> bool
    ensures { result ≡ quoted s.now }
{
    split::begins(trace_on(s), QUOTE)
}

// The trace from behind its opening quote on.
fn inside(s: &[u8]) -> &[u8]
    ensures { result.now ≡ drop 1 (trace_on s.now) }
{
    split::from(trace_on(s), 1)
}

fn behind_comma(s: &[u8]) -> &[u8]
    ensures { result.now ≡ behind_comma s.now }
{
    if split::begins(s, COMMA) {
        return split::from(s, 1);
    }
    split::from(s, s.len())
}

fn flags_field(s: &[u8]) -> &[u8]
    ensures { result.now ≡ flags_field s.now }
{
    if is_quoted(s) {
        return behind_comma(quotes::behind(inside(s)));
    }
    split::behind(trace_on(s), COMMA)
}

fn well_formed(s: &[u8]) -> bool
    ensures { result ≡ well_formed s.now }
{
    let n = s.len();
    (n <= 80)
        & (digits::is_number(split::before(s, COMMA), 4)
            & (digits::is_label(label_field(s)) & digits::is_number(flags_field(s), 2)))
}

// What is wrong first with a line; `ended` says whether an LF ends it.
pub fn answer(s: &[u8], ended: bool) -> Result<(), LineFault>
    ensures { result ≡ line_judged (line_faults ended s.now) }
{
    if !(ended & well_formed(s)) {
        return Err(LineFault::Malformed);
    }
    if !is_quoted(s) {
        return Err(LineFault::Unquoted);
    }
    if 15 < quotes::count(inside(s)) {
        return Err(LineFault::Long);
    }
    Ok(())
}

// A line with which nothing is wrong.
#[derive(Clone, Copy)]
struct Line<'a> {
    bytes: &'a [u8],
    ghost sound: { Sound bytes.now },
}

impl<'a> Line<'a> {
    // The mark, the number and the label of its record.
    fn front(self, w: &mut Writer)
        requires { HasRoom 5 w.old }
        ensures { Wrote (front_of self.entry.bytes.now) w.old w.new }
    {
        let v = digits::value(split::before(self.bytes, COMMA));
        w.bytes(b"ZM");
        w.byte((v / 256) as u8);
        w.byte((v % 256) as u8);
        w.byte(digits::label(label_field(self.bytes)));
    }

    // The characters of its trace, with spaces up to 15.
    fn trace(self, w: &mut Writer)
        requires { HasRoom 15 w.old }
        ensures { Wrote (padded (characters self.entry.bytes.now)) w.old w.new }
    {
        let spaces = [0x20u8; 15];
        let t = inside(self.bytes);
        let k = quotes::count(t);
        quotes::characters(w, t);
        w.bytes(&spaces[..15 - k]);
    }

    // Its flags.
    fn flags(self) -> u8
        ensures { result ≡ value_from 0 (flags_field self.entry.bytes.now) }
    {
        digits::value(flags_field(self.bytes)) as u8
    }
}

// The record that a line says, where nothing is wrong with it, written.
pub fn record(w: &mut Writer, s: &[u8])
    requires { (Sound s.now) × HasRoom 21 w.old }
    ensures { Wrote (record_of s.now) w.old w.new }
{
    let line = Line { bytes: s };
    line.front(w);
    line.trace(w);
    w.byte(line.flags());
}
