// What the kinds of record share.
ghost use Rattle.std.specs.Prelude.{◌≡◌, true, length};
ghost use Rattle.records.specs.declared.record.Misfit.TheVariants.{Range};
ghost use Rattle.records.specs.Codec.{InRange, Writes, one_byte};

use crate::record::Misfit;

// The byte of a number.
pub(crate) fn byte_of(number: u32) -> Result<u8, Misfit>
    ensures { InRange Range (λ byte. (byte ≡ number) × (one_byte number ≡ true)) (one_byte number) result }
{
    u8::try_from(number).map_err(|_| Misfit::Range)
}

// Copies bytes to the start of the buffer, if they go into it.
pub(crate) fn place(bytes: &[u8], out: &mut [u8]) -> Result<usize, Misfit>
    ensures { Writes (length bytes.now) true bytes.now out.old out.new result }
{
    let size = bytes.len();
    if out.len() < size {
        return Err(Misfit::Size);
    }
    out[0..size].copy_from_slice(bytes);
    Ok(size)
}
