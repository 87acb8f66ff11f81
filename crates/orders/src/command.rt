// The thirty commands that are in.
ghost use Rattle.std.specs.Prelude.{◌≡◌, Some};
ghost use Rattle.std.specs.Option.{ok_or};
ghost use Rattle.orders.specs.declared.refusal.Refusal.TheVariants as refusal;
ghost use Rattle.orders.specs.Commands.{command_byte, command_of, CommandsLaw};
ghost use Rattle.orders.specs.Words.{command_words};

use crate::refusal::Refusal;
use std::fmt;

#[derive(Clone, Copy, PartialEq, Eq, Debug)]
pub enum Command {
    DeleteUser,
    ClearUsers,
    QueryUser,
    CountUsers,
    QueryCard,
    ListUsers,
    RegisterUser,
    ReadUser,
    PutTimeSets,
    DeleteTimeSet,
    ClearTimeSets,
    ReadTimeSet,
    PutZones,
    DeleteZone,
    ClearZones,
    ReadZone,
    PutGroups,
    DeleteGroup,
    ClearGroups,
    ReadGroup,
    PutHolidays,
    DeleteHoliday,
    ClearHolidays,
    ReadHolidays,
    CountLog,
    ReadLog,
    ClearLog,
    ListTimeSets,
    ListZones,
    ListGroups,
}

// The byte of a frame that asks for it.
impl From<Command> for u8 {
    ghost from_gives = { λ c n. n ≡ command_byte c };

    fn from(command: Command) -> u8 {
        match command {
            Command::DeleteUser => 0x01,
            Command::ClearUsers => 0x02,
            Command::QueryUser => 0x03,
            Command::CountUsers => 0x04,
            Command::QueryCard => 0x05,
            Command::ListUsers => 0x06,
            Command::RegisterUser => 0x07,
            Command::ReadUser => 0x08,
            Command::PutTimeSets => 0x20,
            Command::DeleteTimeSet => 0x21,
            Command::ClearTimeSets => 0x22,
            Command::ReadTimeSet => 0x23,
            Command::PutZones => 0x24,
            Command::DeleteZone => 0x25,
            Command::ClearZones => 0x26,
            Command::ReadZone => 0x27,
            Command::PutGroups => 0x28,
            Command::DeleteGroup => 0x29,
            Command::ClearGroups => 0x2A,
            Command::ReadGroup => 0x2B,
            Command::PutHolidays => 0x2C,
            Command::DeleteHoliday => 0x2D,
            Command::ClearHolidays => 0x2E,
            Command::ReadHolidays => 0x2F,
            Command::CountLog => 0x40,
            Command::ReadLog => 0x41,
            Command::ClearLog => 0x42,
            Command::ListTimeSets => 0x48,
            Command::ListZones => 0x49,
            Command::ListGroups => 0x4A,
        }
    }
}

// The command of a byte, if it is in.
impl TryFrom<u8> for Command {
    type Error = Refusal;

    ghost try_from_gives = { λ n r. r ≡ ok_or (command_of n) refusal.Command };

    #[tactic(auto, using(crate::proofs::Naming::commands_law))]
    fn try_from(byte: u8) -> Result<Command, Refusal>
        ensures gives { result ≡ ok_or (command_of byte) refusal.Command }
        ensures law { CommandsLaw }
    {
        match byte {
            0x01 => Ok(Command::DeleteUser),
            0x02 => Ok(Command::ClearUsers),
            0x03 => Ok(Command::QueryUser),
            0x04 => Ok(Command::CountUsers),
            0x05 => Ok(Command::QueryCard),
            0x06 => Ok(Command::ListUsers),
            0x07 => Ok(Command::RegisterUser),
            0x08 => Ok(Command::ReadUser),
            0x20 => Ok(Command::PutTimeSets),
            0x21 => Ok(Command::DeleteTimeSet),
            0x22 => Ok(Command::ClearTimeSets),
            0x23 => Ok(Command::ReadTimeSet),
            0x24 => Ok(Command::PutZones),
            0x25 => Ok(Command::DeleteZone),
            0x26 => Ok(Command::ClearZones),
            0x27 => Ok(Command::ReadZone),
            0x28 => Ok(Command::PutGroups),
            0x29 => Ok(Command::DeleteGroup),
            0x2A => Ok(Command::ClearGroups),
            0x2B => Ok(Command::ReadGroup),
            0x2C => Ok(Command::PutHolidays),
            0x2D => Ok(Command::DeleteHoliday),
            0x2E => Ok(Command::ClearHolidays),
            0x2F => Ok(Command::ReadHolidays),
            0x40 => Ok(Command::CountLog),
            0x41 => Ok(Command::ReadLog),
            0x42 => Ok(Command::ClearLog),
            0x48 => Ok(Command::ListTimeSets),
            0x49 => Ok(Command::ListZones),
            0x4A => Ok(Command::ListGroups),
            _ => Err(Refusal::Command),
        }
    }
}

// What it asks to do.
impl fmt::Display for Command {
    ghost output = { λ c. Some (command_words c) };

    fn fmt<W: fmt::Write>(&self, f: &mut fmt::Formatter<W>) -> fmt::Result {
        match self {
            Command::DeleteUser => f.write_str("delete a user"),
            Command::ClearUsers => f.write_str("clear users"),
            Command::QueryUser => f.write_str("query a user"),
            Command::CountUsers => f.write_str("count users"),
            Command::QueryCard => f.write_str("query a card"),
            Command::ListUsers => f.write_str("list users"),
            Command::RegisterUser => f.write_str("register a user"),
            Command::ReadUser => f.write_str("read a user"),
            Command::PutTimeSets => f.write_str("put time sets"),
            Command::DeleteTimeSet => f.write_str("delete a time set"),
            Command::ClearTimeSets => f.write_str("clear time sets"),
            Command::ReadTimeSet => f.write_str("read a time set"),
            Command::PutZones => f.write_str("put zones"),
            Command::DeleteZone => f.write_str("delete a zone"),
            Command::ClearZones => f.write_str("clear zones"),
            Command::ReadZone => f.write_str("read a zone"),
            Command::PutGroups => f.write_str("put groups"),
            Command::DeleteGroup => f.write_str("delete a group"),
            Command::ClearGroups => f.write_str("clear groups"),
            Command::ReadGroup => f.write_str("read a group"),
            Command::PutHolidays => f.write_str("put holidays"),
            Command::DeleteHoliday => f.write_str("delete a holiday"),
            Command::ClearHolidays => f.write_str("clear holidays"),
            Command::ReadHolidays => f.write_str("read all holidays"),
            Command::CountLog => f.write_str("count the log"),
            Command::ReadLog => f.write_str("read the log"),
            Command::ClearLog => f.write_str("clear the log"),
            Command::ListTimeSets => f.write_str("list time sets"),
            Command::ListZones => f.write_str("list zones"),
            Command::ListGroups => f.write_str("list groups"),
        }
    }
}
