// A day that comes in some year, as 29 February.
ghost use Rattle.std.specs.Prelude.{◌≡◌, true, false, MatchOption};
ghost use Rattle.calendar.specs.Days.{date_of_some_year};

use crate::date::Date;

// A year in which every day comes.
const LEAP_YEAR: u16 = 2000;

#[derive(Clone, Copy, PartialEq, Eq, PartialOrd, Ord, Debug)]
pub struct MonthDay {
    pub(crate) month: u8,
    pub(crate) day: u8,
    ghost real: { date_of_some_year month day ≡ true },
}

impl From<Date> for MonthDay {
    ghost from_gives = { λ date d. (d.month ≡ date.month) × (d.day ≡ date.day) };

    fn from(date: Date) -> MonthDay {
        MonthDay {
            month: date.month,
            day: date.day,
        }
    }
}

impl MonthDay {
    // The day of these numbers, if it comes in some year.
    pub fn new(month: u8, day: u8) -> Option<MonthDay>
        ensures { MatchOption result (date_of_some_year month day ≡ false) (λ d. (d.month ≡ month) × (d.day ≡ day)) }
    {
        Date::new(LEAP_YEAR, month, day).map(MonthDay::from)
    }

    pub fn month(&self) -> u8
        ensures { result ≡ self.now.month }
    {
        self.month
    }

    pub fn day(&self) -> u8
        ensures { result ≡ self.now.day }
    {
        self.day
    }
}
