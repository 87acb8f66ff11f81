// A stretch of the day, both ends included.
ghost use Rattle.std.specs.Prelude.{◌≡◌, ◌≤◌};
ghost use Rattle.calendar.specs.Days.{minute_of_day};

use calendar::TimeOfDay;

#[derive(Clone, Copy, PartialEq, Eq, Debug)]
pub struct TimeSet {
    pub(crate) start: TimeOfDay,
    pub(crate) end: TimeOfDay,
    ghost ordered: { minute_of_day start.hour start.minute ≤ minute_of_day end.hour end.minute },
}

impl TimeSet {
    pub fn start(&self) -> TimeOfDay
        ensures { result ≡ self.now.start }
    {
        self.start
    }

    pub fn end(&self) -> TimeOfDay
        ensures { result ≡ self.now.end }
    {
        self.end
    }
}
