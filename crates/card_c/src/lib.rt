// The functions of the crate `card` as C calls them: include/card.h declares them. Each is the function of its name there, under the same promise.
#![tactic(auto)]

ghost use Rattle.std.specs.Prelude.{◌≡◌};
ghost use Rattle.parity.specs.Parity.{parity_of};
ghost use Rattle.trace_message.specs.Message.{trace_check};
ghost use Rattle.word.specs.Word.{reading_of};
ghost use Rattle.settings.specs.Faults.{settings_check, settings_place};

use card::CardRefusal;

#[unsafe(no_mangle)]
pub extern "C" fn card_parity(bytes: &[u8]) -> u8
    ensures { result ≡ parity_of bytes.now }
{
    card::card_parity(bytes)
}

#[unsafe(no_mangle)]
pub extern "C" fn card_trace_check(bytes: &[u8]) -> bool
    ensures { result ≡ trace_check bytes.now }
{
    card::card_trace_check(bytes)
}

#[unsafe(no_mangle)]
pub extern "C" fn card_word_reading(bytes: &[u8]) -> u16
    ensures { result ≡ reading_of bytes.now }
{
    card::card_word_reading(bytes)
}

#[unsafe(no_mangle)]
pub extern "C" fn card_settings_check(label: u8, trace: &[u8]) -> CardRefusal
    ensures { result ≡ record { number = settings_check label trace.now; place = settings_place label trace.now } }
{
    card::card_settings_check(label, trace)
}
