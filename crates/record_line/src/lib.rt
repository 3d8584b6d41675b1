// A record of the catalogue as a line of text, written into a lent buffer: the lines of the listing and those of the export, which differ in their form.
// The definitions stand in specs/RecordLine.antt; specs/Inner.antt has how long a line can be.
#![tactic(auto)]

ghost use Rattle.std.specs.Prelude.{◌≡◌, [], ◌∷◌, ◌++◌, ◌+◌, ◌*◌, length};
ghost use Rattle.text.specs.Inner.{Short};
ghost use Rattle.text.specs.InnerWriting.{HasRoom, WroteWithin};
ghost use Rattle.records.specs.Record.{circuit_in, flags_in, plain};
ghost use Rattle.record_line.specs.RecordLine.{number_and_label, characters_of, trace_and_flags, line_of, lines_from};
ghost use Rattle.record_line.specs.Inner.{characters_most, line_most};

use records::{File, Record};
use text::Writer;

// What a line has between its fields, before and behind the trace, and whether each quote in the trace is doubled.
#[derive(Clone, Copy)]
pub struct Form {
    pub between: u8,
    pub opening: u8,
    pub closing: u8,
    pub doubles: bool,
}

// A record's circuit number, of two bytes.
fn circuit(r: Record) -> u64
    ensures { Short 5 (circuit_in r.entry.bytes.now) result }
{
    u64::from(r.circuit())
}

// A record's flags, of one byte.
fn flags(r: Record) -> u64
    ensures { Short 3 (flags_in r.entry.bytes.now) result }
{
    u64::from(r.flags())
}

// A record's number and label.
fn number_and_label(form: Form, w: &mut Writer, r: Record)
    requires { HasRoom 8 w.old }
    ensures { WroteWithin 8 (number_and_label form r.entry.bytes.now) w.old w.new }
{
    w.decimal(circuit(r));
    w.byte(form.between);
    w.hex(r.label());
}

// The 15 characters of a trace.
fn characters(form: Form, w: &mut Writer, t: &[u8])
    requires { (length t.now ≡ 15) × HasRoom (characters_most form) w.old }
    ensures { WroteWithin (characters_most form) (characters_of form t.now) w.old w.new }
{
    if form.doubles {
        quotes::double(w, t);
        return;
    }
    w.bytes(t);
}

// A record's trace and flags.
fn trace_and_flags(form: Form, w: &mut Writer, r: Record)
    requires { HasRoom (characters_most form + 6) w.old }
    ensures { WroteWithin (characters_most form + 6) (trace_and_flags form r.entry.bytes.now) w.old w.new }
{
    w.byte(form.opening);
    characters(form, w, r.trace());
    w.byte(form.closing);
    w.byte(form.between);
    w.decimal(flags(r));
}

// A record's line, with its LF.
fn line(form: Form, w: &mut Writer, r: Record)
    requires { HasRoom (line_most form) w.old }
    ensures { WroteWithin (line_most form) (line_of form r.entry.bytes.now ++ (0x0a ∷ [])) w.old w.new }
{
    number_and_label(form, w, r);
    w.byte(form.between);
    trace_and_flags(form, w, r);
    w.byte(0x0a);
}

// The lines of a file's records.
pub fn lines(form: Form, w: &mut Writer, file: File)
    requires { HasRoom (line_most form * file.count) w.old }
    ensures { WroteWithin (line_most form * file.entry.count) (lines_from form (plain file.entry.kind) file.entry.bytes.now 0 file.entry.count) w.old w.new }
{
    for k in 0..file.count {
        line(form, w, file.record(k));
    }
}
