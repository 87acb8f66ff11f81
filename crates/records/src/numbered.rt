// The kinds of record whose number has one byte.
ghost use Rattle.std.specs.Prelude.{◌≡◌, true};
ghost use Rattle.tables.specs.Maps.{inside};
ghost use Rattle.records.specs.declared.record.Misfit.TheVariants.{Range};
ghost use Rattle.records.specs.Codec.{InRange};

use crate::group::Group;
use crate::holiday::Holiday;
use crate::limits::{
    FIRST_GROUP, FIRST_HOLIDAY, FIRST_TIME_SET, FIRST_ZONE, LAST_GROUP, LAST_HOLIDAY,
    LAST_TIME_SET, LAST_ZONE,
};
use crate::record::{Misfit, Record};
use crate::time_set::TimeSet;
use crate::zone::Zone;

// The numbers that a record of the kind may have run from a first to a last one.
pub trait ByteNumbered: Record {
    ghost use Rattle.std.specs.Prelude.{◌≡◌, ℕ};
    ghost use Rattle.tables.specs.Maps.{inside};

    const FIRST: u8;

    const LAST: u8;

    ghost FIRST: { ℕ };

    ghost LAST: { ℕ };

    ghost spans: { (last_user n : ℕ) → Self.Record.numbers last_user n ≡ inside FIRST LAST n };
}

impl ByteNumbered for TimeSet {
    ghost use Rattle.std.specs.Prelude.{refl};

    const FIRST: u8 = FIRST_TIME_SET;

    const LAST: u8 = LAST_TIME_SET;

    ghost FIRST = { 2 };

    ghost LAST = { 255 };

    ghost spans = { λ last n. refl };
}

impl ByteNumbered for Zone {
    ghost use Rattle.std.specs.Prelude.{refl};

    const FIRST: u8 = FIRST_ZONE;

    const LAST: u8 = LAST_ZONE;

    ghost FIRST = { 2 };

    ghost LAST = { 120 };

    ghost spans = { λ last n. refl };
}

impl ByteNumbered for Group {
    ghost use Rattle.std.specs.Prelude.{refl};

    const FIRST: u8 = FIRST_GROUP;

    const LAST: u8 = LAST_GROUP;

    ghost FIRST = { 2 };

    ghost LAST = { 255 };

    ghost spans = { λ last n. refl };
}

impl ByteNumbered for Holiday {
    ghost use Rattle.std.proofs.Common.{rules};

    const FIRST: u8 = FIRST_HOLIDAY;

    const LAST: u8 = LAST_HOLIDAY;

    ghost FIRST = { 0 };

    ghost LAST = { 99 };

    ghost spans = { λ last n. Prim.search rules };
}

// The number that a byte is, if it is one from the first to the last. It takes these and no type: the proof of a
// kind's own `from_bytes` would lead back to itself through the kind's `Record`.
pub(crate) fn number_within(first: u8, last: u8, byte: u8) -> Result<u32, Misfit>
    ensures { InRange Range (λ n. (n ≡ byte) × (inside first last n ≡ true)) (inside first last byte) result }
{
    if !(first..=last).contains(&byte) {
        return Err(Misfit::Range);
    }
    Ok(u32::from(byte))
}

// The number that a byte is, if a record of the kind may have it.
pub fn number_from<R: ByteNumbered>(byte: u8) -> Result<u32, Misfit>
    ensures { InRange Range (λ n. (n ≡ byte) × (inside R.FIRST R.LAST n ≡ true)) (inside R.FIRST R.LAST byte) result }
{
    number_within(R::FIRST, R::LAST, byte)
}
