// A holiday, to and from its bytes.
ghost use Rattle.records.specs.Codec.{one_byte};
ghost use Rattle.records.specs.Decoding.{holiday_of};
ghost use Rattle.records.specs.Holidays.{holiday_number, holiday_bytes, holiday_ranges};
ghost use Rattle.std.specs.Prelude.{refl};
ghost use Rattle.records.specs.HolidayBytes.{ranges_right};
ghost use Rattle.records.specs.HolidayBytes;
ghost use Rattle.records.specs.DecodingLemmas.{holiday_yes};
ghost use Rattle.std.proofs.Common.{arith};
ghost use Rattle.records.specs.Bytes.{below_holds};

use crate::codec::{byte_of, place};
use crate::holiday::Holiday;
use crate::limits::{FIRST_HOLIDAY, HOLIDAY_SIZE, LAST_HOLIDAY};
use crate::numbered::number_within;
use crate::record::{Misfit, Record};
use calendar::MonthDay;
use tables::entry::Entry;

impl Record for Holiday {
    ghost long = { 3 };

    ghost encoded = { holiday_bytes };

    ghost decoded = { holiday_of };

    ghost ranges = { λ _ bytes. holiday_ranges bytes };

    ghost holds = { one_byte };

    ghost numbers = { λ _ n. holiday_number n };

    ghost some_bytes = { omega arith };

    ghost sized = { λ e. refl };

    ghost reads_back = { λ last e right. ranges_right e right };

    ghost fits = { λ last n right. below_holds 99 n (omega arith) right };

    ghost apart = { λ e f _ _ is. HolidayBytes.apart e f is };

    ghost decodes = { λ last e right. holiday_yes e };

    fn size() -> usize {
        HOLIDAY_SIZE
    }

    fn from_bytes(_last_user: u32, bytes: &[u8]) -> Result<Entry<Holiday>, Misfit> {
        let [first, month, day] = *bytes.as_array::<HOLIDAY_SIZE>().ok_or(Misfit::Size)?;
        let number = number_within(FIRST_HOLIDAY, LAST_HOLIDAY, first)?;
        let day = MonthDay::new(month, day).ok_or(Misfit::Range)?;
        let body = Holiday { day };
        Ok(Entry { number, body })
    }

    fn write(item: &Entry<Holiday>, out: &mut [u8]) -> Result<usize, Misfit> {
        let number = byte_of(item.number)?;
        let day = item.body.day;
        let bytes = [number, day.month(), day.day()];
        place(&bytes, out)
    }
}
