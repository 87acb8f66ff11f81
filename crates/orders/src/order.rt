// What is asked of the controller, whatever protocol brought it.
ghost use Rattle.std.specs.Prelude.{◌≡◌, ◌+◌, ◌*◌, ◌<◌, true, length, Some, MatchOption};
ghost use Rattle.tables.specs.declared.entry.Entry.{Entry as TableEntry};
ghost use Rattle.records.specs.declared.user.User.{User as Person};
ghost use Rattle.records.specs.Users.{user_may_have};
ghost use Rattle.orders.specs.Orders.{order_command, record_bytes, Finds, FindsAll, FindsUser, LiesBehind};

use crate::command::Command;
use records::limits::REST_SIZE;
use records::{Record, User};
use tables::entry::Entry;

// Where the records of an order lie in the bytes beside it, one behind the other, and how many there are.
// An order names places and borrows no bytes, so that it can be kept beside the line that owns them.
#[derive(Clone, Copy, PartialEq, Eq, Debug)]
pub struct Place {
    pub start: usize,
    pub count: usize,
}

// A user to be registered: its number, whether it may replace one that stands, and where the bytes behind its
// number begin among those beside the order, as a `Place` says it of records.
#[derive(Clone, Copy, PartialEq, Eq, Debug)]
pub struct NewUser {
    pub number: u32,
    pub overwrite: bool,
    pub rest: usize,
}

impl Place {
    // The bytes of a turn, of records that have `size` bytes.
    fn part<'a>(&self, size: usize, bytes: &'a [u8], turn: usize) -> Option<&'a [u8]>
        ensures { MatchOption result (turn < self.now.count → length bytes.now < self.now.start + size * turn + size) (λ s. (turn < self.now.count) × (s.now ≡ record_bytes size self.now bytes.now turn)) }
    {
        if turn >= self.count {
            return None;
        }
        let start = self.start.checked_add(size.checked_mul(turn)?)?;
        bytes.get(start..start.checked_add(size)?)
    }

    // The record of a turn, the first being 0, if its bytes are there and its fields in range. The last user number and the
    // bytes come one by one, as a caller has them: it has no struct of both.
    pub fn record<R: Record + Drop>(
        &self,
        last_user: u32,
        bytes: &[u8],
        turn: usize,
    ) -> Option<Entry<R>>
        ensures value { Finds R.Record.encoded R.Record.long (R.Record.ranges last_user) (R.Record.numbers last_user) self.now bytes.now turn result }
        ensures all { FindsAll R.Record.encoded R.Record.long (R.Record.numbers last_user) self.now bytes.now turn result }
    {
        let part = self.part(R::size(), bytes, turn)?;
        R::from_bytes(last_user, part).ok()
    }
}

impl NewUser {
    // The user, if its bytes are there and its fields in range. The arguments come one by one, as in `Place::record`.
    pub fn user(&self, last_user: u32, bytes: &[u8]) -> Option<Entry<User>>
        ensures value { FindsUser last_user self.now bytes.now result }
        ensures all { (e : TableEntry Person) → LiesBehind self.now bytes.now e → user_may_have last_user e.number ≡ true → result ≡ Some e }
    {
        let end = self.rest.checked_add(REST_SIZE)?;
        let rest = bytes.get(self.rest..end)?;
        User::with_number(last_user, self.number, rest).ok()
    }
}

#[derive(Clone, Copy)]
pub enum Order {
    DeleteUser(u32),
    ClearUsers,
    QueryUser(u32),
    CountUsers,
    QueryCard(u64),
    ListUsers,
    RegisterUser(NewUser),
    ReadUser(u32),
    PutTimeSets(Place),
    DeleteTimeSet(u32),
    ClearTimeSets,
    ReadTimeSet(u32),
    PutZones(Place),
    DeleteZone(u32),
    ClearZones,
    ReadZone(u32),
    PutGroups(Place),
    DeleteGroup(u32),
    ClearGroups,
    ReadGroup(u32),
    PutHolidays(Place),
    DeleteHoliday(u32),
    ClearHolidays,
    ReadHolidays,
    CountLog,
    ReadLog,
    ClearLog,
    ListTimeSets,
    ListZones,
    ListGroups,
}

impl Order {
    pub fn command(&self) -> Command
        ensures { result ≡ order_command self.now }
    {
        match self {
            Order::DeleteUser(_) => Command::DeleteUser,
            Order::ClearUsers => Command::ClearUsers,
            Order::QueryUser(_) => Command::QueryUser,
            Order::CountUsers => Command::CountUsers,
            Order::QueryCard(_) => Command::QueryCard,
            Order::ListUsers => Command::ListUsers,
            Order::RegisterUser(_) => Command::RegisterUser,
            Order::ReadUser(_) => Command::ReadUser,
            Order::PutTimeSets(_) => Command::PutTimeSets,
            Order::DeleteTimeSet(_) => Command::DeleteTimeSet,
            Order::ClearTimeSets => Command::ClearTimeSets,
            Order::ReadTimeSet(_) => Command::ReadTimeSet,
            Order::PutZones(_) => Command::PutZones,
            Order::DeleteZone(_) => Command::DeleteZone,
            Order::ClearZones => Command::ClearZones,
            Order::ReadZone(_) => Command::ReadZone,
            Order::PutGroups(_) => Command::PutGroups,
            Order::DeleteGroup(_) => Command::DeleteGroup,
            Order::ClearGroups => Command::ClearGroups,
            Order::ReadGroup(_) => Command::ReadGroup,
            Order::PutHolidays(_) => Command::PutHolidays,
            Order::DeleteHoliday(_) => Command::DeleteHoliday,
            Order::ClearHolidays => Command::ClearHolidays,
            Order::ReadHolidays => Command::ReadHolidays,
            Order::CountLog => Command::CountLog,
            Order::ReadLog => Command::ReadLog,
            Order::ClearLog => Command::ClearLog,
            Order::ListTimeSets => Command::ListTimeSets,
            Order::ListZones => Command::ListZones,
            Order::ListGroups => Command::ListGroups,
        }
    }
}
