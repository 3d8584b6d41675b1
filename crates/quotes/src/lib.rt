// A trace in double quotes, read from behind its opening quote on and written. The definitions stand in specs/Quotes.antt.
#![tactic(auto)]

ghost use Rattle.std.specs.Prelude.{◌≡◌, false, [], ◌∷◌, ◌+◌, ◌*◌, ◌≤◌, length, MatchOption};
ghost use Rattle.text.specs.InnerWriting.{HasRoom, Wrote, WroteWithin};
ghost use Rattle.quotes.specs.Quotes.{in_quotes, behind_quotes, doubled};
ghost use Rattle.quotes.specs.Inner.{Closes, Says};

use text::Writer;

const QUOTE: u8 = 0x22;

// The first character that the rest of a field says, and what stands behind it; none at the closing quote, nor where nothing is left.
fn next(s: &[u8]) -> Option<(u8, &[u8])>
    ensures { MatchOption result (Closes s.now) (λ p. Says s.now p.0 p.1.now) }
{
    let (b, further) = s.split_first()?;
    if *b != QUOTE {
        return Some((*b, further));
    }
    let further = further.strip_prefix(&[QUOTE])?;
    Some((QUOTE, further))
}

// What stands behind the closing quote.
pub fn behind(s: &[u8]) -> &[u8]
    ensures { result.now ≡ behind_quotes false s.now }
{
    let mut rest = s;
    while let Some((_, further)) = next(rest) {
        rest = further;
    }
    split::from(rest, 1)
}

// How many characters the field says.
pub fn count(s: &[u8]) -> usize
    ensures { result ≡ length (in_quotes false s.now) }
{
    let mut n = 0;
    let mut rest = s;
    while let Some((_, further)) = next(rest) {
        n += 1;
        rest = further;
    }
    n
}

// The characters, written.
pub fn characters(w: &mut Writer, s: &[u8])
    requires { HasRoom (length (in_quotes false s.now)) w.old }
    ensures { Wrote (in_quotes false s.now) w.old w.new }
{
    let mut rest = s;
    while let Some((b, further)) = next(rest) {
        w.byte(b);
        rest = further;
    }
}

// One character as it stands between quotes.
fn character(w: &mut Writer, b: u8)
    requires { HasRoom 2 w.old }
    ensures { Wrote (doubled (b ∷ [])) w.old w.new }
{
    if b == QUOTE {
        w.bytes(b"\"\"");
        return;
    }
    w.byte(b);
}

// Characters as they stand between quotes, each quote doubled.
pub fn double(w: &mut Writer, s: &[u8])
    requires { HasRoom (2 * length s.now) w.old }
    ensures { WroteWithin (2 * length s.now) (doubled s.now) w.old w.new }
{
    for b in s {
        character(w, *b);
    }
}
