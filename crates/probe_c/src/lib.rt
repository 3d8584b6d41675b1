// The functions of the crate `probe` for Rust and C to link. Each is the function of its name there, under the same promise.
#![tactic(auto)]

ghost use Rattle.std.specs.Prelude.{◌≡◌, cond, eqb, length};
ghost use Rattle.trace_message.specs.Message.{start_byte};
ghost use Rattle.word.specs.Word.{plain_word, inverted_word, inverted};
ghost use Rattle.records.specs.Record.{old_kind};
ghost use Rattle.catalogue.specs.Catalogue.{check_of, counted_of, lookup_of};
ghost use Rattle.listing.specs.Listing.{Listed};
ghost use Rattle.importing.specs.Import.{import_of, result_of, left_by};
ghost use Rattle.copier.specs.Put.{put};
ghost use Rattle.exporting.specs.Export.{export_of, export_answer};
ghost use Rattle.probe.specs.Probe.{packed_check, packed_found, characters_found, packed_imported, packed_exported};

#[unsafe(no_mangle)]
pub extern "C" fn probe_copy(src: &[u8], dst: &mut [u8]) -> bool
    ensures { (result ≡ eqb (length src.now) (length dst.old)) × (dst.new ≡ cond (eqb (length src.now) (length dst.old)) src.now dst.old) }
{
    probe::probe_copy(src, dst)
}

#[unsafe(no_mangle)]
pub extern "C" fn probe_start_byte(characters: &[u8]) -> u8
    ensures { result ≡ start_byte characters.now }
{
    probe::probe_start_byte(characters)
}

#[unsafe(no_mangle)]
pub extern "C" fn probe_plain_word(value: u16) -> u16
    ensures { result ≡ plain_word value }
{
    probe::probe_plain_word(value)
}

#[unsafe(no_mangle)]
pub extern "C" fn probe_adjusting_word(places: u16, value: u16) -> u16
    ensures { result ≡ inverted_word places value }
{
    probe::probe_adjusting_word(places, value)
}

#[unsafe(no_mangle)]
pub extern "C" fn probe_inverted(places: u16, w: u16, offset: u16) -> u32
    ensures { result ≡ inverted places w offset }
{
    probe::probe_inverted(places, w, offset)
}

#[unsafe(no_mangle)]
pub extern "C" fn probe_check(s: &[u8]) -> u64
    ensures { result ≡ packed_check (counted_of old_kind s.now) }
{
    probe::probe_check(s)
}

#[unsafe(no_mangle)]
pub extern "C" fn probe_lookup(s: &[u8], number: u32, characters: &mut [u8; 15]) -> u64
    ensures { (result ≡ packed_found (lookup_of old_kind s.now number)) × (characters.new ≡ characters_found (lookup_of old_kind s.now number)) }
{
    probe::probe_lookup(s, number, characters)
}

#[unsafe(no_mangle)]
pub extern "C" fn probe_list(s: &[u8], text: &mut [u8; 15898]) -> usize
    ensures { Listed old_kind s.now text.old text.new result }
{
    probe::probe_list(s, text)
}

#[unsafe(no_mangle)]
pub extern "C" fn probe_import(s: &[u8], catalogue: &mut [u8; 10752]) -> u64
    ensures { (result ≡ packed_imported (import_of s.now)) × (catalogue.new ≡ left_by (import_of s.now) (result_of s.now) catalogue.old) }
{
    probe::probe_import(s, catalogue)
}

#[unsafe(no_mangle)]
pub extern "C" fn probe_export(s: &[u8], text: &mut [u8; 23552]) -> u64
    ensures { (result ≡ packed_exported (export_answer (length (export_of s.now)) (check_of old_kind s.now))) × (text.new ≡ put 0 (export_of s.now) text.old) }
{
    probe::probe_export(s, text)
}
