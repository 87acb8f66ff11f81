// What a line of the sheet says, and what may be wrong with it.
ghost use Rattle.std.specs.Prelude.{◌≡◌, Some};
ghost use Rattle.script.specs.Entries.{kind_of, said, word_of};
ghost use Rattle.script.specs.Messages.{words_of};
ghost use Rattle.script.specs.Reading.{fault_of};

use crate::hex::HexFault;
use std::error::Error;
use std::fmt;

// What the controller was set up with; `last_user` is the sheet's MU.
#[derive(Clone, Copy, Debug, PartialEq, Eq)]
pub struct Setup {
    pub tid: u16,
    pub mac: [u8; 6],
    pub last_user: u32,
}

// A card that was shown at a door. Direction 1 is in, 2 is out, and a sheet may have any other byte: no enum names them.
#[derive(Clone, Copy, Debug, PartialEq, Eq)]
pub struct Showing {
    pub card: [u8; 8],
    pub door: u8,
    pub year: u16,
    pub month: u8,
    pub date: u8,
    pub hour: u8,
    pub minute: u8,
    pub second: u8,
    pub direction: u8,
}

#[derive(Debug, Drop)]
pub enum Entry {
    Setup(Setup),
    Send(Vec<u8>),
    Withdraw(Vec<u8>),
    Reply(Vec<u8>),
    Show(Showing),
    // a number that was written down, right or wrong: a sheet may have any byte, so no enum of events or refusals
    Event(u8),
    Refused(u8),
}

impl Entry {
    pub(crate) fn kind(&self) -> Kind
        ensures { result ≡ kind_of (said self.now) }
    {
        match self {
            Entry::Setup(_) => Kind::Setup,
            Entry::Send(_) => Kind::Send,
            Entry::Withdraw(_) => Kind::Withdraw,
            Entry::Reply(_) => Kind::Reply,
            Entry::Show(_) => Kind::Show,
            Entry::Event(_) => Kind::Event,
            Entry::Refused(_) => Kind::Refused,
        }
    }
}

// What an entry is, by its first word.
#[derive(Clone, Copy, Debug, PartialEq, Eq)]
pub enum Kind {
    Setup,
    Send,
    Withdraw,
    Reply,
    Show,
    Event,
    Refused,
}

impl Kind {
    pub(crate) const ALL: [Kind; 7] = [
        Kind::Setup,
        Kind::Send,
        Kind::Withdraw,
        Kind::Reply,
        Kind::Show,
        Kind::Event,
        Kind::Refused,
    ];

    pub(crate) fn word(self) -> &'static str
        ensures { result.now ≡ word_of self }
    {
        match self {
            Kind::Setup => "setup",
            Kind::Send => "send",
            Kind::Withdraw => "withdraw",
            Kind::Reply => "reply",
            Kind::Show => "show",
            Kind::Event => "event",
            Kind::Refused => "refused",
        }
    }
}

#[derive(Clone, Copy, Debug, PartialEq, Eq)]
pub enum Fault {
    Word,
    Tid,
    Mac,
    LastUser,
    NotHex,
    HalfByte,
    Card,
    Door,
    Day,
    Time,
    Direction,
    Code,
    // something stands after the last field
    After,
    Memory,
}

impl From<HexFault> for Fault {
    ghost from_gives = { λ e r. r ≡ fault_of e };

    fn from(e: HexFault) -> Fault {
        match e {
            HexFault::NotHex => Fault::NotHex,
            HexFault::HalfByte => Fault::HalfByte,
            HexFault::Memory => Fault::Memory,
        }
    }
}

impl Fault {
    fn words(self) -> &'static str
        ensures { result.now ≡ words_of self }
    {
        match self {
            Fault::Word => "the first word names no entry",
            Fault::Tid => "the TID is not two bytes in hexadecimal",
            Fault::Mac => "the MAC is not six bytes in hexadecimal",
            Fault::LastUser => "MU is not a number up to 4294967295",
            Fault::NotHex => "a character is not a hexadecimal digit",
            Fault::HalfByte => "a byte has one hexadecimal digit only",
            Fault::Card => "the card is not eight bytes in hexadecimal",
            Fault::Door => "the door is not a number up to 255",
            Fault::Day => "the day is not of the form YYYY-MM-DD",
            Fault::Time => "the time is not of the form hh:mm:ss",
            Fault::Direction => "the direction is not in, out or one byte in hexadecimal",
            Fault::Code => "the code is not one byte in hexadecimal",
            Fault::After => "something stands after the end of the entry",
            Fault::Memory => "there is not enough memory",
        }
    }
}

impl fmt::Display for Fault {
    ghost output = { λ e. Some (words_of e) };

    fn fmt<W: fmt::Write>(&self, f: &mut fmt::Formatter<W>) -> fmt::Result {
        f.write_str(self.words())
    }
}

impl Error for Fault {}

impl fmt::Display for HexFault {
    ghost output = { λ e. Some (words_of (fault_of e)) };

    fn fmt<W: fmt::Write>(&self, f: &mut fmt::Formatter<W>) -> fmt::Result {
        f.write_str(Fault::from(*self).words())
    }
}

impl Error for HexFault {}
