// The export of a catalogue as comma-separated text, in a lent buffer. What it is stands in specs/Export.antt. The program `export` prints it.
#![tactic(auto)]

ghost use Rattle.std.specs.Prelude.{◌≡◌, ◌*◌, ◌≤◌, length};
ghost use Rattle.text.specs.Inner.{Written};
ghost use Rattle.records.specs.Record.{plain};
ghost use Rattle.record_line.specs.RecordLine.{lines_from};
ghost use Rattle.exporting.specs.Export.{sheet_form, Exports};

use record_line::Form;
use records::{File, Kind, Refusal};
use text::Writer;

// The form of its lines: commas between the fields, the trace in double quotes.
fn form() -> Form
    ensures { result ≡ sheet_form }
{
    Form {
        between: 0x2c,
        opening: 0x22,
        closing: 0x22,
        doubles: true,
    }
}

// The lines of a good catalogue's records, from the start of a buffer on; the answer is how many bytes they are.
fn text_of(out: &mut [u8], file: File) -> usize
    requires { 46 * file.count ≤ length out.old }
    ensures { Written 0 (lines_from sheet_form (plain file.entry.kind) file.entry.bytes.now 0 file.entry.count) out.old out.new result }
{
    let mut w = Writer { out, at: 0 };
    record_line::lines(form(), &mut w, file);
    w.at
}

// The export, written from the start of the buffer on; the answer is the text's length. The buffer has room for 512 lines of 46, whatever bytes a record holds; the records of a
// good catalogue make lines of at most 44. A refused catalogue leaves it as it was.
pub fn export(s: &[u8], out: &mut [u8; 23552]) -> Result<usize, Refusal>
    ensures { Exports s.now out.old out.new result }
{
    let count = catalogue::check(s).checked?;
    let file = File {
        kind: Kind::old(),
        bytes: s,
        count,
    };
    Ok(text_of(out, file))
}
