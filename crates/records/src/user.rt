// A user: the card, when it counts, and the groups that say where.
ghost use Rattle.std.specs.Prelude.{◌≡◌, ◌^◌, ◌<◌, ◌≤◌, length};

use crate::window::Window;

#[derive(Clone, Copy, PartialEq, Eq, Debug)]
pub enum Status {
    Off,
    Active,
}

#[derive(Clone, Copy, PartialEq, Eq, Debug)]
pub struct User {
    // 0 is no card.
    pub(crate) card: u64,
    pub(crate) name: [u8; 31],
    pub(crate) window: Window,
    pub(crate) status: Status,
    // A type from 0 to 5: the six have no names and no meaning here, so it stays a number.
    pub(crate) kind: u8,
    pub(crate) groups: [u8; 4],
    pub(crate) bypass: u8,
    pub(crate) password: [u8; 8],
    pub(crate) reserved: [u8; 15],
    ghost eight: { card < 2 ^ 64 },
    ghost named: { length name ≡ 31 },
    ghost kinds: { kind ≤ 5 },
    ghost four: { length groups ≡ 4 },
    ghost secret: { length password ≡ 8 },
    ghost rest: { length reserved ≡ 15 },
}

impl User {
    pub fn card(&self) -> u64
        ensures { result ≡ self.now.card }
    {
        self.card
    }

    pub fn status(&self) -> Status
        ensures { result ≡ self.now.status }
    {
        self.status
    }

    pub fn window(&self) -> Window
        ensures { result ≡ self.now.window }
    {
        self.window
    }

    pub fn groups(&self) -> &[u8; 4]
        ensures { result.now ≡ self.now.groups }
    {
        &self.groups
    }
}
