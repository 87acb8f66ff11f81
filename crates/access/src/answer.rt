// What a card shown at a door gets: an event, and the number of the user whom it concerns.
ghost use Rattle.std.specs.Prelude.{◌≡◌};

use doors::Event;

#[derive(Clone, Copy)]
pub struct Answer {
    pub(crate) event: Event,
    // 0 where nobody has the card: no Option, since the log keeps this number as it is.
    pub(crate) user: u32,
}

impl Answer {
    pub fn event(&self) -> Event
        ensures { result ≡ self.now.event }
    {
        self.event
    }

    pub fn user(&self) -> u32
        ensures { result ≡ self.now.user }
    {
        self.user
    }
}
