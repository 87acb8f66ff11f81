// Writing a reply around its data, in place.
ghost use Rattle.std.specs.Prelude.{◌≡◌, ℕ, ◌+◌};
ghost use Rattle.orders.specs.Replies.{header, Encloses};

use crate::heading::Heading;
use line::checksum;
use line::frame::{LAST_BYTE, SECOND_BYTE};

// A reply and a frame differ in their first byte, and agree in the second and the last.
const FIRST_BYTE: u8 = 0x09;

// Where a reply's data stand.
pub const DATA: usize = 16;
// What a reply has besides its data.
pub const AROUND: usize = DATA + 2;

// The bytes in front of data, of a reply that has `length` bytes with them.
fn header_array(heading: &Heading, length: u32) -> [u8; DATA]
    ensures { (n : ℕ) → length ≡ 18 + n → result ≡ header heading.now n }
{
    let mut bytes = [0u8; DATA];
    bytes[0..2].copy_from_slice(&[FIRST_BYTE, SECOND_BYTE]);
    bytes[2..6].copy_from_slice(&length.to_be_bytes());
    bytes[6..8].copy_from_slice(&heading.tid.to_be_bytes());
    bytes[8] = heading.result;
    bytes[9] = heading.command;
    bytes[10..DATA].copy_from_slice(&heading.mac);
    bytes
}

// Makes a reply of `data` bytes that stand from `DATA` on, and tells its length. Without room for it nothing is written.
pub fn enclose(heading: &Heading, data: usize, out: &mut [u8]) -> Option<usize>
    ensures { Encloses heading.now «data» out.old out.new result }
{
    let size = data.checked_add(AROUND)?;
    let length = u32::try_from(size).ok()?;
    if out.len() < size {
        return None;
    }
    out[0..DATA].copy_from_slice(&header_array(heading, length));
    let end = DATA + data;
    out[end] = checksum(&out[0..end]);
    out[end + 1] = LAST_BYTE;
    Some(size)
}
