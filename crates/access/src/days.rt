// Which row of a zone counts on a day.
ghost use Rattle.std.specs.Prelude.{◌≡◌, suc};
ghost use Rattle.access.specs.Covering.{falls_on, holiday_among, row_among, row_sets};

use calendar::{Date, MonthDay};
use records::{Holiday, Zone};
use tables::table::Table;

// Monday to Sunday have the rows 0 to 6.
const HOLIDAY_ROW: usize = 7;

// Does the holiday fall on this day?
fn falls_on(holiday: &Holiday, date: &Date) -> bool
    ensures { result ≡ falls_on date.now holiday.now }
{
    holiday.day() == MonthDay::from(*date)
}

pub fn is_holiday<T: Table<Body = Holiday>>(holidays: &T, date: &Date) -> bool
    ensures { result ≡ holiday_among (T.Table.view holidays.now).at (suc (T.Table.view holidays.now).high) date.now }
{
    holidays.iter().any(|holiday| falls_on(&holiday.body, date))
}

// The row of the day: the holiday row on a holiday, else that of the weekday.
pub fn row_of<T: Table<Body = Holiday>>(holidays: &T, date: &Date) -> usize
    ensures { result ≡ row_among (T.Table.view holidays.now).at (suc (T.Table.view holidays.now).high) date.now }
{
    if is_holiday(holidays, date) {
        HOLIDAY_ROW
    } else {
        usize::from(date.weekday())
    }
}

// The time sets of a row. Past the last row there are none.
pub fn row_sets(zone: &Zone, row: usize) -> &[u8]
    ensures { result.now ≡ row_sets zone.now row }
{
    match zone.row(row) {
        Some(found) => found.sets(),
        None => &[],
    }
}
