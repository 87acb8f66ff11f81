// What a number means where a record names others, and whether a time set covers a minute.
ghost use Rattle.std.specs.Prelude.{◌≡◌};
ghost use Rattle.access.specs.Standing.{meant};
ghost use Rattle.access.specs.Covering.{times_include};
ghost use Rattle.access.specs.Meant.{Means};

use calendar::Minute;
use records::{Named, TimeSet};
use tables::entry::Entry;
use tables::table::Table;

// What a number comes to: never, always, or as this record says.
pub enum Meant<R> {
    Never,
    Always,
    As(R),
}

// Where no record stands under a number that names one, it is never.
pub(crate) fn look_up<T: Table>(table: &T, number: u8) -> Meant<&Entry<T::Body>>
    ensures { Means (T.Table.view table.now).at number result }
{
    match Named::from(number) {
        Named::Never => Meant::Never,
        Named::Always => Meant::Always,
        Named::Record(number) => match table.get(u32::from(number)) {
            Some(entry) => Meant::As(entry),
            None => Meant::Never,
        },
    }
}

// Do the times of the set include the minute?
fn includes(set: &TimeSet, minute: &Minute) -> bool
    ensures { result ≡ times_include minute.now set.now }
{
    let time = minute.time();
    set.start() <= time && time <= set.end()
}

// Does the time set of that number cover the minute?
pub fn set_covers<T: Table<Body = TimeSet>>(time_sets: &T, number: u8, minute: &Minute) -> bool
    ensures { result ≡ meant (T.Table.view time_sets.now).at (times_include minute.now) number }
{
    match look_up(time_sets, number) {
        Meant::Never => false,
        Meant::Always => true,
        Meant::As(set) => includes(&set.body, minute),
    }
}
