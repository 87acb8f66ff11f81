// The time sets of one day.
ghost use Rattle.std.specs.Prelude.{◌≡◌, length};

#[derive(Clone, Copy, PartialEq, Eq, Debug)]
pub struct Row {
    pub(crate) sets: [u8; 3],
    ghost three: { length sets ≡ 3 },
}

impl Row {
    pub fn sets(&self) -> &[u8; 3]
        ensures { result.now ≡ self.now.sets }
    {
        &self.sets
    }
}
