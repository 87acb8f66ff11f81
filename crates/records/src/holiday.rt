// A day on which the holiday row counts, in every year that has it.
ghost use Rattle.std.specs.Prelude.{◌≡◌};

use calendar::MonthDay;

#[derive(Clone, Copy, PartialEq, Eq, Debug)]
pub struct Holiday {
    pub(crate) day: MonthDay,
}

impl Holiday {
    pub fn day(&self) -> MonthDay
        ensures { result ≡ self.now.day }
    {
        self.day
    }
}
