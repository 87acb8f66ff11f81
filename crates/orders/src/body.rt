// How long the body of each command is.
ghost use Rattle.std.specs.Prelude.{◌≡◌};
ghost use Rattle.orders.specs.Bodies.{size_of, long_right};

use crate::command::Command;
use crate::size::BodySize;
use records::limits::{
    CARD_SIZE, GROUP_SIZE, HOLIDAY_SIZE, NUMBER_SIZE, TIME_SET_SIZE, USER_SIZE, ZONE_SIZE,
};

// The byte OVERWRITE stands behind a user's number.
const OVERWRITE_SIZE: usize = 1;

// The number of every record but a user has one byte.
const RECORD_NUMBER_SIZE: usize = 1;

impl Command {
    pub fn body_size(self) -> BodySize
        ensures { result ≡ size_of self }
    {
        match self {
            Command::PutTimeSets => BodySize::Counted(TIME_SET_SIZE),
            Command::PutZones => BodySize::Counted(ZONE_SIZE),
            Command::PutGroups => BodySize::Counted(GROUP_SIZE),
            Command::PutHolidays => BodySize::Counted(HOLIDAY_SIZE),
            Command::RegisterUser => BodySize::Fixed(USER_SIZE + OVERWRITE_SIZE),
            Command::QueryCard => BodySize::Fixed(CARD_SIZE),
            Command::DeleteUser | Command::QueryUser | Command::ReadUser => BodySize::Fixed(
                NUMBER_SIZE,
            ),
            Command::DeleteTimeSet
            | Command::ReadTimeSet
            | Command::DeleteZone
            | Command::ReadZone
            | Command::DeleteGroup
            | Command::ReadGroup
            | Command::DeleteHoliday => BodySize::Fixed(RECORD_NUMBER_SIZE),
            _ => BodySize::Fixed(0),
        }
    }
}

impl BodySize {
    // Has the body this length? A counted body has its count first, and as many records as that.
    pub fn fits(self, body: &[u8]) -> bool
        ensures { result ≡ long_right self body.now }
    {
        match self {
            BodySize::Fixed(size) => body.len() == size,
            BodySize::Counted(size) => match body {
                [count, records @ ..] => records.len() == size.saturating_mul(usize::from(*count)),
                [] => false,
            },
        }
    }
}
