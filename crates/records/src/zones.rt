// A zone, to and from its bytes.
ghost use Rattle.std.specs.Prelude.{◌≡◌, ◌+◌, ◌*◌, ◌<◌, take, drop};
ghost use Rattle.records.specs.Codec.{one_byte};
ghost use Rattle.records.specs.Decoding.{zone_of};
ghost use Rattle.records.specs.Zones.{zone_number, zone_bytes, zone_ranges};
ghost use Rattle.records.specs.ZoneBytes;
ghost use Rattle.records.specs.DecodingLemmas.{zone_yes};
ghost use Rattle.std.proofs.Common.{arith};
ghost use Rattle.records.specs.Bytes.{byte_holds};

use crate::codec::{byte_of, place};
use crate::limits::{FIRST_ZONE, LAST_ZONE, ZONE_SIZE};
use crate::numbered::number_within;
use crate::record::{Misfit, Record};
use crate::row::Row;
use crate::zone::Zone;
use tables::entry::Entry;

impl Record for Zone {
    ghost long = { 25 };

    ghost encoded = { zone_bytes };

    ghost decoded = { zone_of };

    ghost ranges = { λ _ bytes. zone_ranges bytes };

    ghost holds = { one_byte };

    ghost numbers = { λ _ n. zone_number n };

    ghost some_bytes = { omega arith };

    ghost sized = { λ e. ZoneBytes.sized e };

    ghost reads_back = { λ last e right. right };

    ghost fits = { λ last n right. byte_holds 2 120 n (omega arith) right };

    ghost apart = { λ e f _ _ is. ZoneBytes.apart e f is };

    ghost decodes = { λ last e right. zone_yes e };

    fn size() -> usize {
        ZONE_SIZE
    }

    fn from_bytes(_last_user: u32, bytes: &[u8]) -> Result<Entry<Zone>, Misfit> {
        let bytes = bytes.as_array::<ZONE_SIZE>().ok_or(Misfit::Size)?;
        let number = number_within(FIRST_ZONE, LAST_ZONE, bytes[0])?;
        let (sets, _) = bytes[1..].as_chunks::<3>();
        // Byte by byte out of what is lent, so that the rows come out as one copy; moved by value they were eight copies of three bytes.
        let rows = sets.as_array::<8>().unwrap().each_ref().map(
            |sets| -> Row
                ensures { result.sets ≡ sets.now }
            {
                Row {
                    sets: [sets[0], sets[1], sets[2]],
                }
            },
        );
        let body = Zone { rows };
        Ok(Entry { number, body })
    }

    fn write(item: &Entry<Zone>, out: &mut [u8]) -> Result<usize, Misfit> {
        let mut bytes = [byte_of(item.number)?; ZONE_SIZE];
        let sets = item.body.rows.map(
            |row| -> [u8; 3]
                ensures { result ≡ row.sets }
            { row.sets },
        );
        bytes[1..].copy_from_slice(sets.as_flattened());
        place(&bytes, out)
    }
}
