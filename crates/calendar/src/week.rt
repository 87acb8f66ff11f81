// The days of the week.
ghost use Rattle.std.specs.Prelude.{◌≡◌};
ghost use Rattle.calendar.specs.Week.{weekday_number, weekday_after};

#[derive(Clone, Copy, PartialEq, Eq, Debug)]
pub enum Weekday {
    Monday,
    Tuesday,
    Wednesday,
    Thursday,
    Friday,
    Saturday,
    Sunday,
}

const WEEK: [Weekday; 7] = [
    Weekday::Monday,
    Weekday::Tuesday,
    Weekday::Wednesday,
    Weekday::Thursday,
    Weekday::Friday,
    Weekday::Saturday,
    Weekday::Sunday,
];

// Monday has the number 0, Sunday 6.
impl From<Weekday> for usize {
    ghost from_gives = { λ d n. n ≡ weekday_number d };

    fn from(weekday: Weekday) -> usize {
        weekday as usize
    }
}

// The weekday so many days after 1 January 2000, a Saturday.
pub(crate) fn weekday_after(days: u32) -> Weekday
    ensures { result ≡ weekday_after days }
{
    WEEK[(5 + days as usize) % 7]
}
