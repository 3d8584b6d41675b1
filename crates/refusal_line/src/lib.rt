// The one line of a refusal, written at the start of a lent buffer: its number, and the places that it names. The programs print it.
// What it is stands in specs/RefusalLine.antt.
#![tactic(auto)]

ghost use Rattle.std.specs.Prelude.{◌∷◌, ◌≤◌, length};
ghost use Rattle.text.specs.Text.{decimal_of};
ghost use Rattle.text.specs.Inner.{Within};
ghost use Rattle.text.specs.InnerWriting.{HasRoom, WroteWithin};
ghost use Rattle.records.specs.Refusals.{places_in};
ghost use Rattle.refusal_line.specs.RefusalLine.{blank_before, refusal_line};

use records::Places;
use text::Writer;

// A place, with a blank before it.
fn place(w: &mut Writer, p: usize)
    requires { HasRoom 21 w.old }
    ensures { WroteWithin 21 (0x20 ∷ decimal_of p) w.old w.new }
{
    w.byte(0x20);
    w.decimal(p as u64);
}

// The places that a refusal names, in their order.
fn places(w: &mut Writer, p: Places)
    requires { HasRoom 42 w.old }
    ensures { WroteWithin 42 (blank_before (places_in p)) w.old w.new }
{
    match p {
        Places::Nowhere => {}
        Places::One(first) => place(w, first),
        Places::Two(first, second) => {
            place(w, first);
            place(w, second);
        }
    }
}

// The line; the answer is its length.
pub fn write(out: &mut [u8], number: u8, p: Places) -> usize
    requires { 46 ≤ length out.old }
    ensures { Within 46 0 (refusal_line number (places_in p)) out.old out.new result }
{
    let mut w = Writer { out, at: 0 };
    w.decimal(u64::from(number));
    places(&mut w, p);
    w.byte(0x0a);
    w.at
}
