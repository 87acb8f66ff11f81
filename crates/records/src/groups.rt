// A group, to and from its bytes.
ghost use Rattle.std.specs.Prelude.{◌≡◌};
ghost use Rattle.records.specs.Codec.{one_byte};
ghost use Rattle.records.specs.Decoding.{group_of};
ghost use Rattle.records.specs.Named.{zones_named};
ghost use Rattle.records.specs.Groups.{group_number, group_bytes, group_ranges};
ghost use Rattle.records.specs.GroupBytes;
ghost use Rattle.records.specs.GroupBytes.{ranges_right};
ghost use Rattle.records.specs.DecodingLemmas.{group_yes};
ghost use Rattle.std.proofs.Common.{arith};
ghost use Rattle.records.specs.Bytes.{byte_holds};

use crate::codec::{byte_of, place};
use crate::group::Group;
use crate::limits::{FIRST_GROUP, GROUP_SIZE, LAST_GROUP, LAST_ZONE};
use crate::numbered::number_within;
use crate::record::{Misfit, Record};
use tables::entry::Entry;

// Is each of these numbers a zone's or built in?
fn are_zones(zones: &[u8]) -> bool
    ensures { result ≡ zones_named zones.now }
{
    zones.iter().all(|zone| *zone <= LAST_ZONE)
}

impl Record for Group {
    ghost long = { 10 };

    ghost encoded = { group_bytes };

    ghost decoded = { group_of };

    ghost ranges = { λ _ bytes. group_ranges bytes };

    ghost holds = { one_byte };

    ghost numbers = { λ _ n. group_number n };

    ghost some_bytes = { omega arith };

    ghost sized = { λ e. GroupBytes.sized e };

    ghost reads_back = { λ last e right. ranges_right e right };

    ghost fits = { λ last n right. byte_holds 2 255 n (omega arith) right };

    ghost apart = { λ e f _ _ is. GroupBytes.apart e f is };

    ghost decodes = { λ last e right. group_yes e };

    fn size() -> usize {
        GROUP_SIZE
    }

    fn from_bytes(_last_user: u32, bytes: &[u8]) -> Result<Entry<Group>, Misfit> {
        let bytes = bytes.as_array::<GROUP_SIZE>().ok_or(Misfit::Size)?;
        let number = number_within(FIRST_GROUP, LAST_GROUP, bytes[0])?;
        let zones = *bytes[1..9].as_array().unwrap();
        if !are_zones(&zones) {
            return Err(Misfit::Range);
        }
        let doors = bytes[9];
        let body = Group { zones, doors };
        Ok(Entry { number, body })
    }

    fn write(item: &Entry<Group>, out: &mut [u8]) -> Result<usize, Misfit> {
        let mut bytes = [0; GROUP_SIZE];
        bytes[0] = byte_of(item.number)?;
        bytes[1..9].copy_from_slice(&item.body.zones);
        bytes[9] = item.body.doors;
        place(&bytes, out)
    }
}
