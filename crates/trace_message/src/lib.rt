// The trace message of J1: its start byte with the 7-bit check, whether a message is good, whether two traces are the same.
// The definitions stand in specs/Message.antt. The container source, the sink's trace machine, the catalogue and the card's host rest on this crate.
#![tactic(auto)]

ghost use Rattle.std.specs.Prelude.{◌≡◌, ◌<◌, ◌≤◌, ◌+◌, length, take, drop};
ghost use Rattle.std.specs.Int.{w64, from_le_bytes, to_le_bytes};
ghost use Rattle.trace_message.specs.Message.{check7, start_byte, top_bits_clear, good_message, trace_check, alike};
ghost use Rattle.trace_message.specs.InnerRegister.{bits_in, bytes_in, reduced};

// x^3 + 1 for x^7: of a polynomial below x^11 this leaves the remainder.
fn reduce(t: u32) -> u32
    ensures { result ≡ reduced t }
{
    (t % 128) ^ (t / 128) ^ (t / 128 * 8)
}

// One more byte in the register, its top bit the coefficient of x^7; its eight bits at once, since x^8 leaves x^4 + x: the theorem `byte_in` (proofs/Bytewise.antt) says so of every register and byte.
// This is for speed. Bit by bit a message takes some six times as long; a table of what x^8 leaves of each register takes longer too, as it is copied to the stack first.
fn byte(r: u32, b: u8) -> u32
    requires { r < 128 }
    ensures { (result ≡ bits_in 8 r b) × (result < 128) }
{
    reduce((r * 16) ^ (r * 2) ^ u32::from(b))
}

// The register times x^7, its seven bits 0 at once, since x^7 leaves x^3 + 1: the theorem `seven_in`.
fn times_x7(r: u32) -> u32
    requires { r < 128 }
    ensures { (result ≡ bits_in 7 r 0) × (result < 128) }
{
    reduce((r * 8) ^ r)
}

// All bits of the bytes.
fn bytes(start: u32, s: &[u8]) -> u32
    requires { start < 128 }
    ensures { (result ≡ bytes_in start s.now) × (result < 128) }
{
    let mut r = start;
    for b in s {
        r = byte(r, *b);
    }
    r
}

// The start byte of a message with these characters. It is taken as 80 in its own check.
pub fn start_byte(characters: &[u8]) -> u8
    ensures { result ≡ start_byte characters.now }
{
    let first = byte(0, 0x80);
    let all = bytes(first, characters);
    let check = times_x7(all);
    (0x80 + check) as u8
}

// Whether every byte has its top bit 0.
fn top_bits_clear(s: &[u8]) -> bool
    ensures { result ≡ top_bits_clear s.now }
{
    s.iter().all(|b| *b < 0x80)
}

// Whether a start byte and characters are a good message. What is received may hold any byte below 80: 20 to 7E is asked of settings.
pub fn good_message(start: u8, characters: &[u8]) -> bool
    ensures { result ≡ good_message start characters.now }
{
    top_bits_clear(characters) & (start == start_byte(characters))
}

// The host's trace check: no, unless given the 16 bytes of a good message.
pub fn trace_check(s: &[u8]) -> bool
    ensures { result ≡ trace_check s.now }
{
    if s.len() != 16 {
        return false;
    }
    good_message(s[0], &s[1..])
}

// The eight bytes from a place on as one number, which gives them back: two such numbers are the same where the bytes are.
fn eight(s: &[u8], at: usize) -> u64
    requires { at + 8 ≤ length s.now }
    ensures { (result ≡ from_le_bytes w64 (take 8 (drop at s.now)))
        × (to_le_bytes w64 result ≡ take 8 (drop at s.now)) }
{
    u64::from_le_bytes([
        s[at],
        s[at + 1],
        s[at + 2],
        s[at + 3],
        s[at + 4],
        s[at + 5],
        s[at + 6],
        s[at + 7],
    ])
}

// Whether two traces are the same, byte for byte and as long: a trailing space is a byte like any other.
// The fifteen bytes of a trace are compared as two numbers, the first eight and the last eight, for speed: two that differ take one jump or two. Byte by byte it takes up to four,
// and by where these lie alone the check of 512 records takes up to 1.5 times as long.
// Of any other length every byte is looked at, with no way out of the loop, so that the compiler can take many at a time.
// Kept: with `x == y` the check of 512 records takes 3.0 times as long as byte by byte, and the sink 1.08.
pub fn same(x: &[u8], y: &[u8]) -> bool
    ensures { result ≡ alike x.now y.now }
{
    if x.len() != y.len() {
        return false;
    }
    if x.len() == 15 {
        return (eight(x, 0) == eight(y, 0)) & (eight(x, 7) == eight(y, 7));
    }
    let mut all = true;
    for (i, b) in x.iter().enumerate() {
        all &= *b == y[i];
    }
    all
}
