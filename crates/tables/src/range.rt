// The numbers that a table keeps, both ends included. There are none where the last is below the first.
ghost use Rattle.std.specs.Prelude.{◌≡◌, suc, ◌-◌, ◌^◌, ◌<◌};
ghost use Rattle.tables.specs.Maps.{inside};

#[derive(Clone, Copy)]
pub struct Range {
    pub(crate) first: u32,
    pub(crate) last: u32,
    ghost fits: { last < 2 ^ 32 },
}

impl Range {
    pub(crate) fn new(first: u32, last: u32) -> Range
        ensures first { result.first ≡ first }
        ensures last { result.last ≡ last }
    {
        Range { first, last }
    }

    // How many numbers there are.
    pub(crate) fn size(&self) -> usize
        ensures { result ≡ suc self.now.last - self.now.first }
    {
        if self.first <= self.last {
            (self.last - self.first) as usize + 1
        } else {
            0
        }
    }

    pub(crate) fn holds(&self, number: u32) -> bool
        ensures { result ≡ inside self.now.first self.now.last number }
    {
        self.first <= number && number <= self.last
    }
}
