// The fields of a line, each read from the front of a text: its value and the text after it.
ghost use Rattle.std.specs.Prelude.{◌≡◌, ◌+◌, ◌-◌, ◌*◌, ◌≤◌, IfSome, if◌then◌else◌, Some, None, nat_le};
ghost use Rattle.std.specs.Option.{option_map};
ghost use Rattle.script.specs.Fields.{seen, skip, ends, after_mark, after_word, hex_byte, hex_word, number_word, two_digits, three_pairs};

use crate::hex::digit;

// A loop, since `trim_ascii_start` takes tabs and line ends too.
pub(crate) fn skip_spaces(text: &[u8]) -> &[u8]
    ensures { result.now ≡ skip text.now }
{
    let mut rest = text;
    while let [b' ', after @ ..] = rest {
        rest = after;
    }
    rest
}

// Whether a word ends where `text` begins.
fn word_ends(text: &[u8]) -> bool
    ensures { result ≡ ends text.now }
{
    matches!(text, [] | [b' ', ..])
}

fn after_mark(text: &[u8], mark: u8) -> Option<&[u8]>
    ensures { option_map (λ x. x.now) result ≡ after_mark mark text.now }
{
    text.strip_prefix(&[mark])
}

fn hex_byte(text: &[u8]) -> Option<(u8, &[u8])>
    ensures { seen result ≡ hex_byte text.now }
{
    let [high, low, rest @ ..] = text else {
        return None;
    };
    Some((16 * digit(*high)? + digit(*low)?, rest))
}

pub(crate) fn two_digits(text: &[u8]) -> Option<(u8, &[u8])>
    ensures { seen result ≡ two_digits text.now }
{
    match text {
        [a @ b'0'..=b'9', b @ b'0'..=b'9', rest @ ..] => Some((
            10 * (*a - b'0') + (*b - b'0'),
            rest,
        )),
        _ => None,
    }
}

// The text after `word`, if `text` begins with it and the word ends there.
#[tactic(auto, using(crate::proofs::FieldLaws::word_front))]
pub(crate) fn after_word<'a>(text: &'a [u8], word: &str) -> Option<&'a [u8]>
    ensures { option_map (λ x. x.now) result ≡ after_word word.now text.now }
{
    text.strip_prefix(word.as_bytes())
        .filter(|rest| word_ends(rest))
}

// `N` bytes, with spaces before each or none, and the end of the word.
pub(crate) fn hex_word<const N: usize>(text: &[u8]) -> Option<([u8; N], &[u8])>
    ensures { seen result ≡ hex_word N text.now }
{
    let mut bytes = [0; N];
    let mut rest = text;
    for byte in bytes.iter_mut() {
        (*byte, rest) = hex_byte(skip_spaces(rest))?;
    }
    word_ends(rest).then_some((bytes, rest))
}

// The number with one more digit, if it is up to `limit`.
fn next_number(n: u32, c: u8, limit: u32) -> Option<u32>
    requires { (48 ≤ c) × ((c ≤ 57) × (n ≤ limit)) }
    ensures { result ≡ (if nat_le (10 * n + (c - 48)) limit then Some (10 * n + (c - 48)) else None) }
{
    n.checked_mul(10)?
        .checked_add(u32::from(c - b'0'))
        .filter(|n| *n <= limit)
}

// A number of one digit or more, up to `limit`. `parse` is not asked, since it takes a sign.
pub(crate) fn number_word(text: &[u8], limit: u32) -> Option<(u32, &[u8])>
    ensures value { seen result ≡ number_word limit text.now }
    ensures bound { IfSome result (λ p. p.0 ≤ limit) }
{
    let mut rest = skip_spaces(text);
    if rest.is_empty() {
        return None;
    }
    let mut n = 0;
    while let [c @ b'0'..=b'9', after @ ..] = rest {
        n = next_number(n, *c, limit)?;
        rest = after;
    }
    word_ends(rest).then_some((n, rest))
}

// Three numbers of two digits, with `mark` between them, and the end of the word.
pub(crate) fn three_pairs(text: &[u8], mark: u8) -> Option<((u8, u8, u8), &[u8])>
    ensures { seen result ≡ three_pairs mark text.now }
{
    let (a, text) = two_digits(text)?;
    let (b, text) = two_digits(after_mark(text, mark)?)?;
    let (c, text) = two_digits(after_mark(text, mark)?)?;
    word_ends(text).then_some(((a, b, c), text))
}
