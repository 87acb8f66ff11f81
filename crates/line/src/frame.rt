// A frame's bytes: 07, 03, LENGTH (four), TID (two), COMMAND, the body, a checksum and 04.
ghost use Rattle.std.specs.Prelude.{◌≡◌, ◌%◌, sum};
ghost use Rattle.line.specs.Frame.{ends_right, sums_right};

pub const FIRST_BYTE: u8 = 0x07;

pub const SECOND_BYTE: u8 = 0x03;

pub const LAST_BYTE: u8 = 0x04;

// LENGTH is known once these are there.
pub const LENGTH_END: usize = 6;

// And TID, once these are.
pub(crate) const TID_END: usize = 8;

pub const SHORTEST: usize = 11;

pub const LONGEST: usize = 4096;

// The sum of all bytes, modulo 256.
pub fn checksum(bytes: &[u8]) -> u8
    ensures { result ≡ sum bytes.now % 256 }
{
    let mut total: u8 = 0;
    for byte in bytes {
        total = total.wrapping_add(*byte);
    }
    total
}

// Is the last byte 04?
pub fn ends_right(frame: &[u8]) -> bool
    ensures { result ≡ ends_right frame.now }
{
    matches!(frame, [.., LAST_BYTE])
}

// Is the byte before the last the checksum of all before it?
pub fn checksum_right(frame: &[u8]) -> bool
    ensures { result ≡ sums_right frame.now }
{
    matches!(frame, [before @ .., sum, _] if *sum == checksum(before))
}
