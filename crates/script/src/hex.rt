// Bytes as text: two hexadecimal digits a byte.
ghost use Rattle.std.specs.Prelude.{◌≡◌, ◌*◌, ◌<◌, ◌≤◌, [], ◌∷◌, length, take, IsAscii, IfSome, Some, IfOk, string_bytes};
ghost use Rattle.std.specs.List.{flat_map};
ghost use Rattle.script.specs.Hex.{digit_of, figure_of, hex_bytes, hex_text, ReadsPrinted, PrintsNormal, ReadsBytes};
ghost use Rattle.script.specs.Outcome.{AnswersAs};
ghost use Rattle.script.specs.declared.hex.HexFault.TheVariants.{Memory};

use std::alloc::{AllocError, AllocFailed, Global};
use std::fmt;

#[derive(Clone, Copy, Debug, PartialEq, Eq)]
pub enum HexFault {
    // a character that is neither a digit nor a space between bytes
    NotHex,
    // a byte of one digit, with a space or the end after it
    HalfByte,
    Memory,
}

impl<T: Drop> From<AllocFailed<T>> for HexFault {
    ghost from_gives = { λ _ r. r ≡ Memory };

    fn from(_e: AllocFailed<T>) -> HexFault {
        HexFault::Memory
    }
}

pub(crate) fn digit(c: u8) -> Option<u8>
    ensures value { result ≡ digit_of c }
    ensures bound { IfSome result (λ d. d < 16) }
{
    char::from(c).to_digit(16).map(|d| d as u8)
}

// The bytes that `text` writes; the leftmost fault decides.
#[tactic(auto, using(crate::proofs::HexLaws::prints_normal, crate::proofs::HexLaws::reads_bytes))]
pub fn from_hex(heap: Global, text: &[u8]) -> Result<Vec<u8>, HexFault>
    ensures value { AnswersAs (λ v. v.items) Memory (hex_bytes text.now) result }
    ensures normal { PrintsNormal }
    ensures bytes { ReadsBytes }
{
    let mut bytes = Vec::new(heap);
    let mut first = None;
    for c in text {
        match (first, digit(*c)) {
            (None, Some(d)) => first = Some(d),
            (Some(high), Some(d)) => {
                bytes.push(16 * high + d)?;
                first = None;
            }
            (None, None) if *c == b' ' => {}
            (Some(_), None) if *c == b' ' => return Err(HexFault::HalfByte),
            (_, None) => return Err(HexFault::NotHex),
        }
    }
    match first {
        None => Ok(bytes),
        Some(_) => Err(HexFault::HalfByte),
    }
}

// The digit of a value below 16.
fn figure(value: u8) -> u8
    requires { value < 16 }
    ensures { result ≡ figure_of value }
{
    if value < 10 {
        b'0' + value
    } else {
        b'A' - 10 + value
    }
}

// The digits of a byte.
fn pair_of(byte: u8) -> [u8; 2]
    ensures { result ≡ hex_text (byte ∷ []) }
{
    [figure(byte / 16), figure(byte % 16)]
}

// How many bytes are printed at once.
const PIECE: usize = 16;

// The digits of all bytes of a piece, in front of what is left of the room.
fn pairs_of(piece: &[u8]) -> [[u8; 2]; PIECE]
    requires { length piece.now ≤ 16 }
    ensures digits { take (2 * length piece.now) (flat_map (λ x. x) result) ≡ hex_text piece.now }
    ensures ascii { IsAscii (hex_text piece.now) }
{
    let mut pairs = [[0; 2]; PIECE];
    for (i, byte) in piece.iter().enumerate() {
        pairs[i] = pair_of(*byte);
    }
    pairs
}

// Bytes as they print: two digits each, in upper case and without spaces.
#[derive(Clone, Copy)]
pub(crate) struct Hex<'a>(pub(crate) &'a [u8]);

impl fmt::Display for Hex<'_> {
    ghost output = { λ h. Some (hex_text h.0.now) };

    // By pieces: a formatter that is asked for one byte at a time, as by `{byte:02X}`, takes several times as long.
    fn fmt<W: fmt::Write>(&self, f: &mut fmt::Formatter<W>) -> fmt::Result {
        for piece in self.0.chunks(PIECE) {
            let pairs = pairs_of(piece);
            let digits = &pairs.as_flattened()[..2 * piece.len()];
            f.write_str(str::from_utf8(digits).unwrap())?;
        }
        Ok(())
    }
}

// The digits of `bytes`, in upper case and without spaces.
#[tactic(auto, using(crate::proofs::HexLaws::reads_printed))]
pub fn to_hex(heap: Global, bytes: &[u8]) -> Result<String, AllocError>
    ensures value { IfOk result (λ s. string_bytes s ≡ hex_text bytes.now) }
    ensures back { ReadsPrinted }
{
    Hex(bytes).to_string(heap)
}
