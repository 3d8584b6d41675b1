// One line of a script: its words, and the numbers, bytes and traces that they stand for. Any bytes may be given. docs/BENCH.md has the language.
#![tactic(auto)]

ghost use Rattle.std.specs.Prelude.{◌≤◌, ◌<◌, length, IfSome};

const BLANK: u8 = b' ';

const QUOTE: u8 = b'"';

// ---- a line and its words

// The words of the longest command, and one more.
const MOST: usize = 6;

// The words of a line up to its comment, a word with # in front. Of a line with more words than any command has, the first ones.
#[derive(Drop)]
pub struct Words<'a> {
    words: [&'a [u8]; MOST],
    count: usize,
    ghost within: { count ≤ 6 },
}

impl<'a> Words<'a> {
    // Of a line that may end in a CR, and begin with the mark of UTF-8 where it is a script's first.
    pub fn of(line: &'a [u8], is_first: bool) -> Words<'a> {
        let mut words: [&'a [u8]; MOST] = [b""; MOST];
        let mut rest = without_mark(line.strip_suffix(b"\r").unwrap_or(line), is_first);
        for count in 0..MOST {
            let Some((word, behind)) = first_word(rest) else {
                return Words { words, count };
            };
            words[count] = word;
            rest = behind;
        }
        Words { words, count: MOST }
    }

    pub fn as_slice(&self) -> &[&'a [u8]] {
        &self.words[..self.count]
    }
}

fn without_mark(line: &[u8], is_first: bool) -> &[u8] {
    match line {
        [0xef, 0xbb, 0xbf, unmarked @ ..] if is_first => unmarked,
        _ => line,
    }
}

// The first word of a line, and what stands behind it.
fn first_word(line: &[u8]) -> Option<(&[u8], &[u8])> {
    let start = line.iter().position(|b| *b != BLANK)?;
    let word = &line[start..];
    match word {
        [b'#', ..] => None,
        _ => Some(word.split_at(word_length(word))),
    }
}

// How long the word is that begins here. Blanks between its quotes are its own, and what stands behind the closing one too, up to the next blank.
fn word_length(s: &[u8]) -> usize
    ensures { result ≤ length s.now }
{
    let open = match s {
        [QUOTE, quoted @ ..] => from_closing(quoted),
        _ => s,
    };
    let behind = open.iter().position(|b| *b == BLANK).unwrap_or(open.len());
    s.len() - open.len() + behind
}

// The first of the characters behind an opening quote, two quotes together being one, and what stands behind it; none at a single quote, which ends them.
fn character(s: &[u8]) -> Option<(u8, &[u8])>
    ensures { IfSome result (λ p. length p.1.now < length s.now) }
{
    match s {
        [QUOTE, QUOTE, behind @ ..] => Some((QUOTE, behind)),
        [QUOTE, ..] => None,
        [byte, behind @ ..] => Some((*byte, behind)),
        [] => None,
    }
}

// What stands from the closing quote on.
fn from_closing(s: &[u8]) -> &[u8]
    ensures { length result.now ≤ length s.now }
{
    let mut rest = s;
    while let Some((_, behind)) = character(rest) {
        rest = behind;
    }
    rest
}

// ---- what a word stands for

// One to nine decimal digits, for a number that is at most `most`.
pub fn decimal(word: &[u8], most: u32) -> Option<u32> {
    if word.is_empty() || 9 < word.len() {
        return None;
    }
    let mut n = 0u32;
    for b in word {
        let digit = char::from(*b).to_digit(10)?;
        n = n.checked_mul(10)?.checked_add(digit)?;
    }
    (n <= most).then_some(n)
}

fn pair(high: u8, low: u8) -> Option<u8> {
    let high = char::from(high).to_digit(16)?;
    let low = char::from(low).to_digit(16)?;
    Some((high * 16 + low) as u8)
}

// The bytes of hex digits, at the start of `out`; none where a digit is none, one is left over, or `out` is too short.
pub fn bytes<'a>(word: &[u8], out: &'a mut [u8]) -> Option<&'a [u8]> {
    let n = word.len() / 2;
    if word.len() != 2 * n {
        return None;
    }
    let out = out.get_mut(..n)?;
    for (j, byte) in out.iter_mut().enumerate() {
        *byte = pair(word[2 * j], word[2 * j + 1])?;
    }
    Some(out)
}

// Exactly N bytes.
pub fn exactly<const N: usize>(word: &[u8]) -> Option<[u8; N]> {
    let mut out = [0u8; N];
    let read = bytes(word, &mut out)?.len();
    (read == N).then_some(out)
}

// The characters behind an opening quote, with spaces behind them; none where they are too many, or more stands behind the closing quote.
fn unquoted<const N: usize>(s: &[u8]) -> Option<[u8; N]> {
    let mut out = [BLANK; N];
    let mut rest = s;
    for place in out.iter_mut() {
        let Some((byte, behind)) = character(rest) else {
            break;
        };
        *place = byte;
        rest = behind;
    }
    matches!(rest, [QUOTE]).then_some(out)
}

// A trace: fifteen bytes in hex, or no more characters than that in quotes.
pub fn trace(word: &[u8]) -> Option<[u8; 15]> {
    match word {
        [QUOTE, quoted @ ..] => unquoted(quoted),
        _ => exactly(word),
    }
}
