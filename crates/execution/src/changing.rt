// The change that an order asks for.
ghost use Rattle.journal.specs.Logs.{log};
ghost use Rattle.orders.specs.Frames.{Right};
ghost use Rattle.orders.specs.Meanings.{Meaning};
ghost use Rattle.orders.specs.Orders.{Brings};
ghost use Rattle.execution.specs.Deeds.{deed, Done};

use crate::putting::put_all;
use access::{Makes, Site, Tables};
use journal::Journal;
use orders::Order;
use tables::table::Table;

// Changes one of the tables, or clears the log, as an order in range asks; other orders change nothing.
// The order and its bytes come one by one, as a reader hands them over.
pub fn change<M: Makes>(tables: &mut Tables<M>, journal: &mut Journal, order: &Order, bytes: &[u8])
    ensures { (m : Meaning) → Brings order.now bytes.now m → Right (M.Users.Table.view tables.old.users).high m → Done (deed m.0 m.1) (⟦<Tables<M> as Site>⟧.views tables.old) (⟦<Tables<M> as Site>⟧.views tables.new) (log journal.old) (log journal.new) }
{
    let last_user = tables.users.last();
    match order {
        Order::DeleteUser(number) => tables.users.remove(*number),
        Order::ClearUsers => tables.users.clear(),
        Order::RegisterUser(new) => {
            if let Some(user) = new.user(last_user, bytes) {
                let _ = tables.users.put(user);
            }
        }
        Order::PutTimeSets(place) => put_all(&mut tables.time_sets, last_user, place, bytes),
        Order::DeleteTimeSet(number) => tables.time_sets.remove(*number),
        Order::ClearTimeSets => tables.time_sets.clear(),
        Order::PutZones(place) => put_all(&mut tables.zones, last_user, place, bytes),
        Order::DeleteZone(number) => tables.zones.remove(*number),
        Order::ClearZones => tables.zones.clear(),
        Order::PutGroups(place) => put_all(&mut tables.groups, last_user, place, bytes),
        Order::DeleteGroup(number) => tables.groups.remove(*number),
        Order::ClearGroups => tables.groups.clear(),
        Order::PutHolidays(place) => put_all(&mut tables.holidays, last_user, place, bytes),
        Order::DeleteHoliday(number) => tables.holidays.remove(*number),
        Order::ClearHolidays => tables.holidays.clear(),
        Order::ClearLog => journal.clear(),
        Order::QueryUser(_)
        | Order::CountUsers
        | Order::QueryCard(_)
        | Order::ListUsers
        | Order::ReadUser(_)
        | Order::ReadTimeSet(_)
        | Order::ListTimeSets
        | Order::ReadZone(_)
        | Order::ListZones
        | Order::ReadGroup(_)
        | Order::ListGroups
        | Order::ReadHolidays
        | Order::CountLog
        | Order::ReadLog => {}
    }
}
