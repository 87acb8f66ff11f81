// Which doors a group of users opens, and when.
ghost use Rattle.std.specs.Prelude.{◌≡◌, ◌<◌, ◌≤◌, true, length, MatchOption, slice_index};
ghost use Rattle.records.specs.Named.{zones_named};

#[derive(Clone, Copy, PartialEq, Eq, Debug)]
pub struct Group {
    // The zone for each door.
    pub(crate) zones: [u8; 8],
    // Bit 0 opens door 1, bit 7 door 8.
    pub(crate) doors: u8,
    ghost eight: { length zones ≡ 8 },
    ghost named: { zones_named zones ≡ true },
}

impl Group {
    pub fn doors(&self) -> u8
        ensures { result ≡ self.now.doors }
    {
        self.doors
    }

    pub fn zones(&self) -> &[u8; 8]
        ensures { result.now ≡ self.now.zones }
    {
        &self.zones
    }

    // The zone at a place, where door 1 has the place 0.
    pub fn zone(&self, place: usize) -> Option<u8>
        ensures { MatchOption result (8 ≤ place) (λ z. (place < 8) × (z ≡ slice_index self.now.zones place)) }
    {
        self.zones.get(place).copied()
    }
}
