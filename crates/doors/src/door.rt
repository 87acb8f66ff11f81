// One of the eight doors.
ghost use Rattle.std.specs.Prelude.{◌≡◌, Some, true, false, MatchResult};
ghost use Rattle.doors.specs.Numbers.{door_number, no_door_words};

use std::error::Error;
use std::fmt;

const FIRST_DOOR: u8 = 1;

const LAST_DOOR: u8 = 8;

#[derive(Clone, Copy, PartialEq, Eq, Debug)]
pub struct Door {
    number: u8,
    ghost real: { door_number number ≡ true },
}

// A number that no door has.
#[derive(Clone, Copy, PartialEq, Eq, Debug)]
pub struct NoDoor(pub u8);

impl TryFrom<u8> for Door {
    type Error = NoDoor;

    ghost try_from_gives = { λ n r. MatchResult r (λ d. d.number ≡ n) (λ e. (e.0 ≡ n) × (door_number n ≡ false)) };

    fn try_from(number: u8) -> Result<Door, NoDoor> {
        if number < FIRST_DOOR || LAST_DOOR < number {
            return Err(NoDoor(number));
        }
        Ok(Door { number })
    }
}

impl From<Door> for u8 {
    ghost from_gives = { λ d n. n ≡ d.number };

    fn from(door: Door) -> u8 {
        door.number
    }
}

impl fmt::Display for NoDoor {
    ghost output = { λ e. Some (no_door_words e.0) };

    fn fmt<W: fmt::Write>(&self, f: &mut fmt::Formatter<W>) -> fmt::Result {
        write!(f, "no door has the number {}", self.0)
    }
}

impl Error for NoDoor {}
