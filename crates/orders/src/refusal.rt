// Why a frame or a call is refused.
ghost use Rattle.std.specs.Prelude.{◌≡◌, Some};
ghost use Rattle.orders.specs.Refusals.{result_byte, refused_as, set_up_number, answer_number, show_number};
ghost use Rattle.orders.specs.Words.{refusal_words, set_up_words, answer_words, show_words};

use records::Misfit;
use std::error::Error;
use std::fmt;

// Why a frame is not carried out.
#[derive(Clone, Copy, PartialEq, Eq, Debug)]
pub enum Refusal {
    // The user or the card is not there.
    NoUser,
    // The checksum is wrong.
    Checksum,
    // The last byte is not 04, or the body has not the length of its command.
    Length,
    // The number is registered, and the order does not overwrite.
    Registered,
    // The command is not in.
    Command,
    // A field is out of its range, a count is 0, or a holiday that is named is not there.
    Range,
    // A time set or a zone that is named is not there.
    NoTimeSetOrZone,
    // A zone that a group names, or a group, is not there.
    NoZoneOrGroup,
    // Another user has the card.
    CardTaken,
}

// The number that a reply shows.
impl From<Refusal> for u8 {
    ghost from_gives = { λ e n. n ≡ result_byte e };

    fn from(refusal: Refusal) -> u8 {
        match refusal {
            Refusal::NoUser => 0x03,
            Refusal::Checksum => 0x04,
            Refusal::Length => 0x05,
            Refusal::Registered => 0x06,
            Refusal::Command => 0x08,
            Refusal::Range => 0x09,
            Refusal::NoTimeSetOrZone => 0x12,
            Refusal::NoZoneOrGroup => 0x13,
            Refusal::CardTaken => 0x40,
        }
    }
}

impl fmt::Display for Refusal {
    ghost output = { λ e. Some (refusal_words e) };

    fn fmt<W: fmt::Write>(&self, f: &mut fmt::Formatter<W>) -> fmt::Result {
        match self {
            Refusal::NoUser => f.write_str("the user or the card is not there"),
            Refusal::Checksum => f.write_str("the checksum is wrong"),
            Refusal::Length => f.write_str(
                "the last byte is not 04, or the body has not the length of its command",
            ),
            Refusal::Registered => f.write_str("the number is registered"),
            Refusal::Command => f.write_str("the command is not in"),
            Refusal::Range => f.write_str("a field is out of its range"),
            Refusal::NoTimeSetOrZone => f.write_str(
                "a time set or a zone that is named is not there",
            ),
            Refusal::NoZoneOrGroup => f.write_str("a zone or a group that is named is not there"),
            Refusal::CardTaken => f.write_str("another user has the card"),
        }
    }
}

impl Error for Refusal {}

// Bytes of another length than the record has, or a field of it that is out of its range.
impl From<Misfit> for Refusal {
    ghost from_gives = { λ m e. e ≡ refused_as m };

    fn from(misfit: Misfit) -> Refusal {
        match misfit {
            Misfit::Size => Refusal::Length,
            Misfit::Range => Refusal::Range,
        }
    }
}

// Why tables cannot be set up as a controller.
#[derive(Clone, Copy, PartialEq, Eq, Debug)]
pub enum SetUpRefusal {
    // The user table does not run from 1 to a last number of 1 to 1,000.
    Users,
    // Another table has not its range.
    Ranges,
    // A table is not empty.
    NotEmpty,
}

impl From<SetUpRefusal> for u8 {
    ghost from_gives = { λ e n. n ≡ set_up_number e };

    fn from(refusal: SetUpRefusal) -> u8 {
        match refusal {
            SetUpRefusal::Users => 0x60,
            SetUpRefusal::Ranges => 0x61,
            SetUpRefusal::NotEmpty => 0x62,
        }
    }
}

impl fmt::Display for SetUpRefusal {
    ghost output = { λ e. Some (set_up_words e) };

    fn fmt<W: fmt::Write>(&self, f: &mut fmt::Formatter<W>) -> fmt::Result {
        match self {
            SetUpRefusal::Users => f.write_str(
                "the user table does not run from 1 to a last number of 1 to 1,000",
            ),
            SetUpRefusal::Ranges => f.write_str("a table has not its range"),
            SetUpRefusal::NotEmpty => f.write_str("a table is not empty"),
        }
    }
}

impl Error for SetUpRefusal {}

// Why a ready order is not answered now.
#[derive(Clone, Copy, PartialEq, Eq, Debug)]
pub enum AnswerRefusal {
    // The reply buffer is too short for the longest reply.
    Buffer,
}

impl From<AnswerRefusal> for u8 {
    ghost from_gives = { λ e n. n ≡ answer_number e };

    fn from(refusal: AnswerRefusal) -> u8 {
        match refusal {
            AnswerRefusal::Buffer => 0x63,
        }
    }
}

impl fmt::Display for AnswerRefusal {
    ghost output = { λ e. Some (answer_words e) };

    fn fmt<W: fmt::Write>(&self, f: &mut fmt::Formatter<W>) -> fmt::Result {
        match self {
            AnswerRefusal::Buffer => f.write_str(
                "the reply buffer is too short for the longest reply",
            ),
        }
    }
}

impl Error for AnswerRefusal {}

// Why a card that is shown is turned down.
#[derive(Clone, Copy, PartialEq, Eq, Debug)]
pub enum ShowRefusal {
    // There is no such door.
    Door,
    // The moment is no real date and time of the years 2000 to 2099.
    Moment,
    // There is no such direction.
    Direction,
}

impl From<ShowRefusal> for u8 {
    ghost from_gives = { λ e n. n ≡ show_number e };

    fn from(refusal: ShowRefusal) -> u8 {
        match refusal {
            ShowRefusal::Door => 0x64,
            ShowRefusal::Moment => 0x65,
            ShowRefusal::Direction => 0x66,
        }
    }
}

impl fmt::Display for ShowRefusal {
    ghost output = { λ e. Some (show_words e) };

    fn fmt<W: fmt::Write>(&self, f: &mut fmt::Formatter<W>) -> fmt::Result {
        match self {
            ShowRefusal::Door => f.write_str("there is no such door"),
            ShowRefusal::Moment => f.write_str(
                "the moment is no real date and time of the years 2000 to 2099",
            ),
            ShowRefusal::Direction => f.write_str("there is no such direction"),
        }
    }
}

impl Error for ShowRefusal {}
