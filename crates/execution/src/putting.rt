// Putting the records of an order into a table.
ghost use Rattle.std.specs.Prelude.{◌≡◌, true, List};
ghost use Rattle.std.specs.List.{AllByRecursion};
ghost use Rattle.tables.specs.declared.entry.Entry.{Entry};
ghost use Rattle.tables.specs.Replays.{replay, Agree, SameRange};
ghost use Rattle.orders.specs.Orders.{Lies};
ghost use Rattle.execution.specs.Deeds.{puts};

use orders::Place;
use records::Record;
use tables::table::Table;

// Puts the records at a place in their order.
pub(crate) fn put_all<R: Record + Drop, T: Table<Body = R>>(
    table: &mut T,
    last_user: u32,
    place: &Place,
    bytes: &[u8],
)
    ensures change { (es : List (Entry R)) → Lies R.Record.encoded R.Record.long place.now bytes.now es → AllByRecursion (λ e. R.Record.numbers last_user e.number ≡ true) es → Agree (T.Table.view table.new) (replay (T.Table.view table.old) (puts es)) }
    ensures range { SameRange (T.Table.view table.new) (T.Table.view table.old) }
{
    // By turns, since the records are read out of bytes and stand in no slice.
    for turn in 0..place.count {
        let Some(item) = place.record::<R>(last_user, bytes, turn) else {
            return;
        };
        let _ = table.put(item);
    }
}
