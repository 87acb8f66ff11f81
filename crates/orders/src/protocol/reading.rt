// From a frame to the order that it asks for.
ghost use Rattle.std.specs.Prelude.{◌≡◌, true};
ghost use Rattle.records.specs.Codec.{InRange};
ghost use Rattle.orders.specs.declared.refusal.Refusal.TheVariants.{Range};
ghost use Rattle.orders.specs.Bodies.{size_of, long_right};
ghost use Rattle.orders.specs.Fields.{fields_right};
ghost use Rattle.orders.specs.Readings.{Taken, ReadsFrame, FrameLaws};

use crate::command::Command;
use crate::opening::open;
use crate::order::Order;
use crate::protocol::fields::{card_number, counted_records, new_user, user_number};
use crate::refusal::Refusal;
use records::numbered::number_from;
use records::{Group, Holiday, TimeSet, Zone};

// The order of a command and its body, if every field is in its range.
pub(crate) fn order_of(last_user: u32, command: Command, body: &[u8]) -> Result<Order, Refusal>
    requires { long_right (size_of command) body.now ≡ true }
    ensures { InRange Range (Taken last_user command body.now) (fields_right last_user command body.now) result }
{
    match command {
        Command::DeleteUser => Ok(Order::DeleteUser(user_number(body)?)),
        Command::ClearUsers => Ok(Order::ClearUsers),
        Command::QueryUser => Ok(Order::QueryUser(user_number(body)?)),
        Command::CountUsers => Ok(Order::CountUsers),
        Command::QueryCard => Ok(Order::QueryCard(card_number(body)?)),
        Command::ListUsers => Ok(Order::ListUsers),
        Command::RegisterUser => Ok(Order::RegisterUser(new_user(last_user, body)?)),
        Command::ReadUser => Ok(Order::ReadUser(user_number(body)?)),
        Command::PutTimeSets => Ok(Order::PutTimeSets(counted_records::<TimeSet>(
            last_user, body,
        )?)),
        Command::DeleteTimeSet => Ok(Order::DeleteTimeSet(number_from::<TimeSet>(body[0])?)),
        Command::ClearTimeSets => Ok(Order::ClearTimeSets),
        Command::ReadTimeSet => Ok(Order::ReadTimeSet(number_from::<TimeSet>(body[0])?)),
        Command::PutZones => Ok(Order::PutZones(counted_records::<Zone>(last_user, body)?)),
        Command::DeleteZone => Ok(Order::DeleteZone(number_from::<Zone>(body[0])?)),
        Command::ClearZones => Ok(Order::ClearZones),
        Command::ReadZone => Ok(Order::ReadZone(number_from::<Zone>(body[0])?)),
        Command::PutGroups => Ok(Order::PutGroups(counted_records::<Group>(last_user, body)?)),
        Command::DeleteGroup => Ok(Order::DeleteGroup(number_from::<Group>(body[0])?)),
        Command::ClearGroups => Ok(Order::ClearGroups),
        Command::ReadGroup => Ok(Order::ReadGroup(number_from::<Group>(body[0])?)),
        Command::PutHolidays => Ok(Order::PutHolidays(counted_records::<Holiday>(
            last_user, body,
        )?)),
        Command::DeleteHoliday => Ok(Order::DeleteHoliday(number_from::<Holiday>(body[0])?)),
        Command::ClearHolidays => Ok(Order::ClearHolidays),
        Command::ReadHolidays => Ok(Order::ReadHolidays),
        Command::CountLog => Ok(Order::CountLog),
        Command::ReadLog => Ok(Order::ReadLog),
        Command::ClearLog => Ok(Order::ClearLog),
        Command::ListTimeSets => Ok(Order::ListTimeSets),
        Command::ListZones => Ok(Order::ListZones),
        Command::ListGroups => Ok(Order::ListGroups),
    }
}

// The order that a frame asks for, and the bytes beside it in which its records lie; or why there is none.
pub fn read(frame: &[u8], last_user: u32) -> Result<(Order, &[u8]), Refusal>
    ensures value { ReadsFrame last_user frame.now result }
    ensures laws { FrameLaws last_user frame.now }
{
    let (command, body) = open(frame)?;
    let order = order_of(last_user, command, body)?;
    Ok((order, body))
}
