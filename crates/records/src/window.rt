// When a user's card counts at all.
ghost use Rattle.std.specs.Prelude.{◌≡◌, ◌≤◌, length};
ghost use Rattle.calendar.specs.Dates.{minute_number};

use calendar::Minute;

// Ten bytes that are not looked at and stay as they came.
#[derive(Clone, Copy, PartialEq, Eq, Debug)]
pub struct Kept {
    pub(crate) bytes: [u8; 10],
    ghost ten: { length bytes ≡ 10 },
}

// From a minute to a minute, both included.
#[derive(Clone, Copy, PartialEq, Eq, Debug)]
pub struct Validity {
    pub(crate) start: Minute,
    pub(crate) end: Minute,
    ghost ordered: { minute_number start ≤ minute_number end },
}

// Not a Result or an Option: an unused window is no error, and keeps its ten bytes.
#[derive(Clone, Copy, PartialEq, Eq, Debug)]
pub enum Window {
    Unused(Kept),
    Used(Validity),
}

impl Validity {
    pub fn start(&self) -> Minute
        ensures { result ≡ self.now.start }
    {
        self.start
    }

    pub fn end(&self) -> Minute
        ensures { result ≡ self.now.end }
    {
        self.end
    }
}
