// The questions that ask the tables, once a frame alone has been asked.
ghost use Rattle.std.specs.Prelude.{◌≡◌, true, List};
ghost use Rattle.std.specs.List.{AllByRecursion, list_all};
ghost use Rattle.tables.specs.declared.entry.Entry.{Entry};
ghost use Rattle.records.specs.declared.user.User.{User as Person};
ghost use Rattle.records.specs.Users.{user_may_have};
ghost use Rattle.access.specs.Standing.{standing};
ghost use Rattle.orders.specs.declared.command.Command.TheVariants.{RegisterUser};
ghost use Rattle.orders.specs.Frames.{Right};
ghost use Rattle.orders.specs.Meanings.{Meaning};
ghost use Rattle.orders.specs.Orders.{Lies, LiesBehind, Brings};
ghost use Rattle.execution.specs.Naming.{all_there};
ghost use Rattle.execution.specs.Objections.{unless, objection, admitted_or, asked_tables};

use crate::cards::another_has;
use crate::naming::Naming;
use access::cards::holder;
use access::{Makes, Site, Tables};
use orders::{NewUser, Order, Place, Refusal};
use records::{Group, Record, User, Zone};
use tables::table::Table;

// Is everything there that the records at a place name?
fn all_named<R: Record + Naming + Drop, T: Table>(
    table: &T,
    last_user: u32,
    place: &Place,
    bytes: &[u8],
) -> bool
    ensures { (es : List (Entry R)) → Lies R.Record.encoded R.Record.long place.now bytes.now es → AllByRecursion (λ e. R.Record.numbers last_user e.number ≡ true) es → result ≡ list_all (λ e. all_there (T.Table.view table.now).at (R.Naming.names e.body)) es }
{
    // By turns, since the records are read out of bytes and stand in no slice.
    for turn in 0..place.count {
        let Some(item) = place.record::<R>(last_user, bytes, turn) else {
            return false;
        };
        if !item.body.names_there(table) {
            return false;
        }
    }
    true
}

// A question answered no is refused.
fn found(there: bool, refusal: Refusal) -> Result<(), Refusal>
    ensures { result ≡ admitted_or (unless there refusal) }
{
    if there { Ok(()) } else { Err(refusal) }
}

// Are the groups there that the user names, may it take its number, and has no other user its card?
fn ask_user<M: Makes>(tables: &Tables<M>, new: &NewUser, bytes: &[u8]) -> Result<(), Refusal>
    ensures { (e : Entry Person) → LiesBehind new.now bytes.now e → user_may_have ((M.Users.Table.view tables.now.users).high) e.number ≡ true → result ≡ admitted_or (objection (standing (⟦<Tables<M> as Site>⟧.views tables.now)) RegisterUser (new.now.overwrite, e)) }
{
    let Some(user) = new.user(tables.users.last(), bytes) else {
        return Err(Refusal::Range);
    };
    let free = tables.users.get(user.number).is_none();
    let taken = another_has(&tables.users, user.number, user.body.card());
    found(
        user.body.names_there(&tables.groups),
        Refusal::NoZoneOrGroup,
    )?;
    found(new.overwrite || free, Refusal::Registered)?;
    found(!taken, Refusal::CardTaken)
}

// The questions that ask the tables, for an order in range: the first answered no refuses it. The order and its bytes come one
// by one, as a reader hands them over.
pub fn ask_tables<M: Makes>(tables: &Tables<M>, order: &Order, bytes: &[u8]) -> Result<(), Refusal>
    ensures { (m : Meaning) → Brings order.now bytes.now m → Right ((M.Users.Table.view tables.now.users).high) m → result ≡ asked_tables (standing (⟦<Tables<M> as Site>⟧.views tables.now)) m }
{
    let last_user = tables.users.last();
    match order {
        Order::DeleteUser(number) | Order::QueryUser(number) | Order::ReadUser(number) => {
            found(tables.users.get(*number).is_some(), Refusal::NoUser)
        }
        Order::QueryCard(card) => found(holder(&tables.users, *card).is_some(), Refusal::NoUser),
        Order::RegisterUser(new) => ask_user(tables, new, bytes),
        Order::DeleteTimeSet(number) | Order::ReadTimeSet(number) => found(
            tables.time_sets.get(*number).is_some(),
            Refusal::NoTimeSetOrZone,
        ),
        Order::PutZones(place) => found(
            all_named::<Zone, M::TimeSets>(&tables.time_sets, last_user, place, bytes),
            Refusal::NoTimeSetOrZone,
        ),
        Order::DeleteZone(number) | Order::ReadZone(number) => found(
            tables.zones.get(*number).is_some(),
            Refusal::NoTimeSetOrZone,
        ),
        Order::PutGroups(place) => found(
            all_named::<Group, M::Zones>(&tables.zones, last_user, place, bytes),
            Refusal::NoZoneOrGroup,
        ),
        Order::DeleteGroup(number) | Order::ReadGroup(number) => found(
            tables.groups.get(*number).is_some(),
            Refusal::NoZoneOrGroup,
        ),
        Order::DeleteHoliday(number) => {
            found(tables.holidays.get(*number).is_some(), Refusal::Range)
        }
        Order::ClearUsers
        | Order::CountUsers
        | Order::ListUsers
        | Order::PutTimeSets(_)
        | Order::ClearTimeSets
        | Order::ListTimeSets
        | Order::ClearZones
        | Order::ListZones
        | Order::ClearGroups
        | Order::ListGroups
        | Order::PutHolidays(_)
        | Order::ClearHolidays
        | Order::ReadHolidays
        | Order::CountLog
        | Order::ReadLog
        | Order::ClearLog => Ok(()),
    }
}
