// For tests and benchmarks only: parts of the card that its host does not call, as functions that Rust and C can link.
// Enums become numbers by the definitions of specs/Probe.antt. Nothing of the card rests on this crate.
#![tactic(auto)]

ghost use Rattle.std.specs.Prelude.{◌≡◌, ◌+◌, ◌*◌, ◌%◌, cond, eqb, length};
ghost use Rattle.trace_message.specs.Message.{start_byte};
ghost use Rattle.word.specs.Word.{plain_word, inverted_word, inverted};
ghost use Rattle.records.specs.Record.{old_kind};
ghost use Rattle.records.specs.Refusals.{places_in};
ghost use Rattle.catalogue.specs.Catalogue.{check_of, counted_of, lookup_of};
ghost use Rattle.listing.specs.Listing.{Listed};
ghost use Rattle.importing.specs.Import.{import_of, result_of, left_by};
ghost use Rattle.copier.specs.Put.{put};
ghost use Rattle.exporting.specs.Export.{export_of, export_answer};
ghost use Rattle.probe.specs.Probe.{packed_at, packed, packed_checked, packed_check, packed_found, characters_found, packed_imported, packed_exported};

use catalogue::Entry;
use records::{Places, Refusal};

// The whole of `src` to `dst` where they are as long; else nothing.
pub fn probe_copy(src: &[u8], dst: &mut [u8]) -> bool
    ensures { (result ≡ eqb (length src.now) (length dst.old)) × (dst.new ≡ cond (eqb (length src.now) (length dst.old)) src.now dst.old) }
{
    if src.len() != dst.len() {
        return false;
    }
    copier::copy(src, dst);
    true
}

// The start byte that the characters of a trace get.
pub fn probe_start_byte(characters: &[u8]) -> u8
    ensures { result ≡ start_byte characters.now }
{
    trace_message::start_byte(characters)
}

// The word of a value.
pub fn probe_plain_word(value: u16) -> u16
    ensures { result ≡ plain_word value }
{
    word::plain(value)
}

// The word of an adjustment.
pub fn probe_adjusting_word(places: u16, value: u16) -> u16
    ensures { result ≡ inverted_word places value }
{
    word::adjusting(places, value)
}

// How many bits of a word, at some places, differ from an offset's.
pub fn probe_inverted(places: u16, w: u16, offset: u16) -> u32
    ensures { result ≡ inverted places w offset }
{
    word::inverted_at(places, w, offset)
}

fn pack(number: u8, places: Places) -> u64
    ensures { result ≡ packed_at number (places_in places) }
{
    let (first, second) = places.numbers();
    u64::from(number) * 4294967296 + first as u64 % 65536 * 65536 + second as u64 % 65536
}

fn pack_refusal(x: Refusal) -> u64
    ensures { result ≡ packed x }
{
    pack(x.number(), x.places())
}

// How many pairs were compared, above the number of an answer.
fn with_pairs(pairs: usize, checked: u64) -> u64
    ensures { result ≡ pairs % 16777216 * 1099511627776 + checked % 1099511627776 }
{
    pairs as u64 % 16777216 * 1099511627776 + checked % 1099511627776
}

fn pack_checked(c: Result<usize, Refusal>) -> u64
    ensures { result ≡ packed_checked c }
{
    match c {
        Ok(n) => n as u64,
        Err(x) => pack_refusal(x),
    }
}

// The check of a catalogue.
pub fn probe_check(s: &[u8]) -> u64
    ensures { result ≡ packed_check (counted_of old_kind s.now) }
{
    let c = catalogue::check(s);
    with_pairs(c.pairs, pack_checked(c.checked))
}

fn pack_found(f: Result<Entry, Refusal>) -> u64
    ensures { result ≡ packed_found f }
{
    match f {
        Ok(e) => u64::from(e.label) * 256 + u64::from(e.flags),
        Err(x) => pack_refusal(x),
    }
}

fn characters_found(f: Result<Entry, Refusal>) -> [u8; 15]
    ensures { result ≡ characters_found f }
{
    match f {
        Ok(e) => e.trace,
        Err(_) => [0u8; 15],
    }
}

// The lookup of a circuit in a catalogue, with the characters of its trace.
pub fn probe_lookup(s: &[u8], number: u32, characters: &mut [u8; 15]) -> u64
    ensures { (result ≡ packed_found (lookup_of old_kind s.now number)) × (characters.new ≡ characters_found (lookup_of old_kind s.now number)) }
{
    let f = catalogue::lookup(s, number);
    *characters = characters_found(f);
    pack_found(f)
}

// The listing of a catalogue: its length, and the text from the start of the buffer on.
pub fn probe_list(s: &[u8], text: &mut [u8; 15898]) -> usize
    ensures { Listed old_kind s.now text.old text.new result }
{
    listing::list(s, text)
}

fn pack_imported(i: Result<usize, sheet_refusals::Refusal>) -> u64
    ensures { result ≡ packed_imported i }
{
    match i {
        Ok(n) => n as u64,
        Err(x) => pack(x.number(), x.places()),
    }
}

// The import of a text, with the catalogue from the start of the buffer on.
pub fn probe_import(s: &[u8], catalogue: &mut [u8; 10752]) -> u64
    ensures { (result ≡ packed_imported (import_of s.now)) × (catalogue.new ≡ left_by (import_of s.now) (result_of s.now) catalogue.old) }
{
    pack_imported(importing::import(s, catalogue))
}

fn pack_exported(e: Result<usize, Refusal>) -> u64
    ensures { result ≡ packed_exported e }
{
    match e {
        Ok(n) => n as u64,
        Err(x) => pack_refusal(x),
    }
}

// The export of a catalogue, with the text from the start of the buffer on.
pub fn probe_export(s: &[u8], text: &mut [u8; 23552]) -> u64
    ensures { (result ≡ packed_exported (export_answer (length (export_of s.now)) (check_of old_kind s.now))) × (text.new ≡ put 0 (export_of s.now) text.old) }
{
    pack_exported(exporting::export(s, text))
}
