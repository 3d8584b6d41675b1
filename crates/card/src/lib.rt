// What the card's host, in C, calls: parity, trace check and word reading on byte slices, and a check of settings before they are used. The crate `card_c` exports them.
// The first three refuse nothing, and each of the four has an answer for every length.
#![tactic(auto)]

ghost use Rattle.std.specs.Prelude.{◌≡◌};
ghost use Rattle.parity.specs.Parity.{parity_of};
ghost use Rattle.trace_message.specs.Message.{trace_check};
ghost use Rattle.word.specs.Word.{reading_of};
ghost use Rattle.settings.specs.Faults.{settings_check, settings_place};

// The exclusive or of all bytes; 00 of none.
pub fn card_parity(bytes: &[u8]) -> u8
    ensures { result ≡ parity_of bytes.now }
{
    parity::parity(bytes)
}

// Whether the bytes are the 16 of a good trace message.
pub fn card_trace_check(bytes: &[u8]) -> bool
    ensures { result ≡ trace_check bytes.now }
{
    trace_message::trace_check(bytes)
}

// The pointer word in 2 bytes: 4096 times the NDF kind, 1024 times SS, and the value. 0 for any other number of bytes.
pub fn card_word_reading(bytes: &[u8]) -> u16
    ensures { result ≡ reading_of bytes.now }
{
    word::reading(bytes)
}

// The refusal of settings: its number, 0 for none, and the place of the character that it names, 0 for none.
#[repr(C)]
#[derive(Clone, Copy)]
pub struct CardRefusal {
    pub number: u8,
    pub place: usize,
}

// The number by which every call with this label and this trace will be refused, 0 where none will: 4, 5, 20, 21; 5 and 20 with the place of the character, from 1.
// The trace is fifteen characters; any other number of them is 5 with place 0.
pub fn card_settings_check(label: u8, trace: &[u8]) -> CardRefusal
    ensures { result ≡ record { number = settings_check label trace.now; place = settings_place label trace.now } }
{
    let a = settings::answer_alone(label, trace);
    CardRefusal {
        number: refusals::number(a),
        place: refusals::place(a),
    }
}
