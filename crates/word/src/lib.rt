// The pointer word, H1 and H2 as one number: read and written. Its definitions stand in specs/Word.antt.
// The unit source, the reading of pointer words and the card's host rest on it.
#![tactic(auto)]

ghost use Rattle.std.specs.Prelude.{◌≡◌};
ghost use Rattle.word.specs.Word.{word_of, h1_of, h2_of, kind_of, ss_of, value_of, reading_of, of_kind, good, inverted, plain_word, inverted_word};

// The kinds of NDF, the new data flag, by the numbers of the host's word reading.
#[derive(Clone, Copy, PartialEq, Eq)]
pub enum Ndf {
    Neither = 0,
    Normal = 1,
    Enabled = 2,
}

// From the four NDF bits to the kind: 01's sixteen-entry table.
const KINDS: [Ndf; 16] = [
    Ndf::Neither, // 0000
    Ndf::Enabled, // 0001
    Ndf::Normal, // 0010
    Ndf::Neither, // 0011
    Ndf::Normal, // 0100
    Ndf::Neither, // 0101
    Ndf::Normal, // 0110
    Ndf::Normal, // 0111
    Ndf::Enabled, // 1000
    Ndf::Enabled, // 1001
    Ndf::Neither, // 1010
    Ndf::Enabled, // 1011
    Ndf::Neither, // 1100
    Ndf::Enabled, // 1101
    Ndf::Normal, // 1110
    Ndf::Neither, // 1111
];

// The places of the I bits and of the D bits.
// Kept: numbers and no enum of the two, since `probe_adjusting_word` and `probe_inverted` ask for any places.
pub const I_BITS: u16 = 0x2aa;

pub const D_BITS: u16 = 0x155;

// The word of the bytes H1 and H2.
pub fn of(h1: u8, h2: u8) -> u16
    ensures { result ≡ word_of h1 h2 }
{
    u16::from_be_bytes([h1, h2])
}

// The byte H1 of a word.
pub fn h1(w: u16) -> u8
    ensures { result ≡ h1_of w }
{
    w.to_be_bytes()[0]
}

// The byte H2 of a word.
pub fn h2(w: u16) -> u8
    ensures { result ≡ h2_of w }
{
    w.to_be_bytes()[1]
}

// The kind of a word's NDF bits.
pub fn kind(w: u16) -> Ndf
    ensures { result ≡ kind_of w }
{
    KINDS[usize::from(w / 4096)]
}

// A word's SS bits.
pub fn ss(w: u16) -> u16
    ensures { result ≡ ss_of w }
{
    w / 1024 % 4
}

// A word's value, in range or not.
pub fn value(w: u16) -> u16
    ensures { result ≡ value_of w }
{
    w % 1024
}

// The host's word reading: kind, SS and value in one number, and 0 unless given 2 bytes.
pub fn reading(s: &[u8]) -> u16
    ensures { result ≡ reading_of s.now }
{
    let [h1, h2] = *s else {
        return 0;
    };
    let w = of(h1, h2);
    4096 * kind(w) as u16 + 1024 * ss(w) + value(w)
}

// Whether a word has NDF of the kind whose number is k, and SS 10.
// Kept: a number and no Ndf, here and in the next, since both promise an answer for any number.
pub fn of_kind(k: u8, w: u16) -> bool
    ensures { result ≡ of_kind k w }
{
    kind(w) as u8 == k && ss(w) == 2
}

// Whether a word has NDF of the kind whose number is k, SS 10 and a value of at most `top`.
pub fn is_good(k: u8, top: u16, w: u16) -> bool
    ensures { result ≡ good k top w }
{
    of_kind(k, w) && value(w) <= top
}

// How many of a word's value bits, at the places m, are inverted against the offset.
pub fn inverted_at(m: u16, w: u16, offset: u16) -> u32
    ensures { result ≡ inverted m w offset }
{
    ((value(w) ^ offset) & m).count_ones()
}

// The word that the source writes for a value, of which it takes the ten bits.
pub fn plain(v: u16) -> u16
    ensures { result ≡ plain_word v }
{
    0x6800 + v % 1024
}

// The word that the source writes for an adjustment from the value v: the bits at the places m are inverted.
pub fn adjusting(m: u16, v: u16) -> u16
    ensures { result ≡ inverted_word m v }
{
    plain(v ^ m)
}
