// The listing of a catalogue as text, in a lent buffer: the heading and a line for each record, or the one line of a refusal.
// What it is stands in specs/Listing.antt. The program `list` prints it.
#![tactic(auto)]

ghost use Rattle.std.specs.Prelude.{◌≡◌, ◌++◌, ◌+◌, ◌*◌, ◌≤◌, length};
ghost use Rattle.text.specs.Inner.{Written};
ghost use Rattle.records.specs.Record.{old_kind, plain};
ghost use Rattle.record_line.specs.RecordLine.{lines_from};
ghost use Rattle.listing.specs.Listing.{heading, listing_form, Listed};

use record_line::Form;
use records::{File, Kind};
use text::Writer;

// The form of its lines: blanks between the fields, the trace in brackets.
fn form() -> Form
    ensures { result ≡ listing_form }
{
    Form {
        between: 0x20,
        opening: 0x5b,
        closing: 0x5d,
        doubles: false,
    }
}

// A good catalogue: the heading and the lines.
fn good(out: &mut [u8], file: File) -> usize
    requires { 26 + 31 * file.count ≤ length out.old }
    ensures { Written 0 (heading ++ lines_from listing_form (plain file.entry.kind) file.entry.bytes.now 0 file.entry.count) out.old out.new result }
{
    let mut w = Writer { out, at: 0 };
    w.bytes(b"circuit label trace flags\n");
    record_line::lines(form(), &mut w, file);
    w.at
}

// The listing, written from the start of the buffer on; the answer is its length. The buffer has room for the heading of 26 bytes and
// 512 lines of 31, whatever bytes a record holds; the records of a good catalogue make lines of at most 29.
pub fn list(s: &[u8], out: &mut [u8; 15898]) -> usize
    ensures { Listed old_kind s.now out.old out.new result }
{
    match catalogue::check(s).checked {
        Ok(count) => {
            let file = File {
                kind: Kind::old(),
                bytes: s,
                count,
            };
            good(out, file)
        }
        Err(x) => refusal_line::write(out, x.number(), x.places()),
    }
}
