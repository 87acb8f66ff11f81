// What a card shown at a door got for an answer.
ghost use Rattle.std.specs.Prelude.{◌≡◌};
ghost use Rattle.doors.specs.Numbers.{event_code};

#[derive(Clone, Copy, PartialEq, Eq, Debug)]
pub enum Event {
    // The card is let through.
    Admitted,
    // No user has the card, or there is no card.
    UnknownCard,
    // The user is switched off.
    UserOff,
    // The minute lies outside the user's window.
    OutOfDate,
    // No group of the user opens the door.
    DoorNotOpened,
    // Groups of the user open the door, but none at this minute.
    NotNow,
}

impl From<Event> for u8 {
    ghost from_gives = { λ e n. n ≡ event_code e };

    fn from(event: Event) -> u8 {
        match event {
            Event::Admitted => 0x00,
            Event::UnknownCard => 0x07,
            Event::UserOff => 0x08,
            Event::OutOfDate => 0x09,
            Event::DoorNotOpened => 0x0B,
            Event::NotNow => 0x16,
        }
    }
}
