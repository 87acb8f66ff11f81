// Which way a card was shown.
ghost use Rattle.std.specs.Prelude.{◌≡◌, Some};
ghost use Rattle.std.specs.Option.{ok_or};
ghost use Rattle.doors.specs.Numbers.{direction_byte, direction_of, no_direction_words};

use std::error::Error;
use std::fmt;

#[derive(Clone, Copy, PartialEq, Eq, Debug)]
pub enum Direction {
    In,
    Out,
}

// A number that no direction has.
#[derive(Clone, Copy, PartialEq, Eq, Debug)]
pub struct NoDirection(pub u8);

impl From<Direction> for u8 {
    ghost from_gives = { λ d n. n ≡ direction_byte d };

    fn from(direction: Direction) -> u8 {
        match direction {
            Direction::In => 0x01,
            Direction::Out => 0x02,
        }
    }
}

impl TryFrom<u8> for Direction {
    type Error = NoDirection;

    ghost try_from_gives = { λ n r. r ≡ ok_or (direction_of n) (record { 0 = n }) };

    fn try_from(number: u8) -> Result<Direction, NoDirection> {
        match number {
            0x01 => Ok(Direction::In),
            0x02 => Ok(Direction::Out),
            _ => Err(NoDirection(number)),
        }
    }
}

impl fmt::Display for NoDirection {
    ghost output = { λ e. Some (no_direction_words e.0) };

    fn fmt<W: fmt::Write>(&self, f: &mut fmt::Formatter<W>) -> fmt::Result {
        write!(f, "no direction has the number {}", self.0)
    }
}

impl Error for NoDirection {}
