// A time set, to and from its bytes.
ghost use Rattle.records.specs.Codec.{one_byte};
ghost use Rattle.records.specs.Decoding.{time_set_of};
ghost use Rattle.records.specs.TimeSets.{time_set_number, time_set_bytes, time_set_ranges};
ghost use Rattle.std.specs.Prelude.{refl};
ghost use Rattle.records.specs.TimeSetBytes.{ranges_right};
ghost use Rattle.records.specs.TimeSetBytes;
ghost use Rattle.records.specs.DecodingLemmas.{time_set_yes};
ghost use Rattle.std.proofs.Common.{arith};
ghost use Rattle.records.specs.Bytes.{byte_holds};

use crate::codec::{byte_of, place};
use crate::limits::{FIRST_TIME_SET, LAST_TIME_SET, TIME_SET_SIZE};
use crate::numbered::number_within;
use crate::record::{Misfit, Record};
use crate::time_set::TimeSet;
use calendar::TimeOfDay;
use tables::entry::Entry;

impl Record for TimeSet {
    ghost long = { 5 };

    ghost encoded = { time_set_bytes };

    ghost decoded = { time_set_of };

    ghost ranges = { λ _ bytes. time_set_ranges bytes };

    ghost holds = { one_byte };

    ghost numbers = { λ _ n. time_set_number n };

    ghost some_bytes = { omega arith };

    ghost sized = { λ e. refl };

    ghost reads_back = { λ last e right. ranges_right e right };

    ghost fits = { λ last n right. byte_holds 2 255 n (omega arith) right };

    ghost apart = { λ e f _ _ is. TimeSetBytes.apart e f is };

    ghost decodes = { λ last e right. time_set_yes e };

    fn size() -> usize {
        TIME_SET_SIZE
    }

    fn from_bytes(_last_user: u32, bytes: &[u8]) -> Result<Entry<TimeSet>, Misfit> {
        let [first, start_hour, start_minute, end_hour, end_minute] = *bytes
            .as_array::<TIME_SET_SIZE>()
            .ok_or(Misfit::Size)?;
        let number = number_within(FIRST_TIME_SET, LAST_TIME_SET, first)?;
        let start = TimeOfDay::new(start_hour, start_minute).ok_or(Misfit::Range)?;
        let end = TimeOfDay::new(end_hour, end_minute).ok_or(Misfit::Range)?;
        if end < start {
            return Err(Misfit::Range);
        }
        let body = TimeSet { start, end };
        Ok(Entry { number, body })
    }

    fn write(item: &Entry<TimeSet>, out: &mut [u8]) -> Result<usize, Misfit> {
        let number = byte_of(item.number)?;
        let TimeSet { start, end } = item.body;
        let bytes = [
            number,
            start.hour(),
            start.minute(),
            end.hour(),
            end.minute(),
        ];
        place(&bytes, out)
    }
}
