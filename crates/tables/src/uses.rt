// What holds of every make of table.
ghost use Rattle.std.specs.Prelude.{◌≡◌};
ghost use Rattle.tables.specs.Maps.{count_of};
ghost use Rattle.tables.specs.Replays.{edited, replay, Agree, Alike};

use crate::edit::Edit;
use crate::table::Table;

// How many records a walk by `next` meets: as many as are counted.
pub fn walked<T: Table>(table: &T) -> usize
    ensures { result ≡ count_of (T.Table.view table.now) }
{
    let mut met = 0;
    let mut reached = None;
    // Counting needs no record, so it goes by `next` and not by `iter`, which fetches each.
    while let Some(number) = table.next(reached) {
        met += 1;
        reached = Some(number);
    }
    met
}

fn apply_one<T: Table>(table: &mut T, edit: &Edit<T::Body>)
where
    T::Body: Copy,
    ensures { Agree (T.Table.view table.new) (edited (T.Table.view table.old) edit.now) }
{
    match edit {
        Edit::Put(item) => {
            let _ = table.put(*item);
        }
        Edit::Remove(number) => table.remove(*number),
        Edit::Clear => table.clear(),
    }
}

// Makes a list of changes. A put outside the range is passed over.
pub fn apply<T: Table>(table: &mut T, edits: &[Edit<T::Body>])
where
    T::Body: Copy,
    ensures { Agree (T.Table.view table.new) (replay (T.Table.view table.old) edits.now) }
{
    for edit in edits {
        apply_one(table, edit);
    }
}

// Two tables of the same range and map, of any makes, stay the same to their users under the same changes.
pub fn apply_both<L: Table, R: Table<Body = L::Body>>(
    left: &mut L,
    right: &mut R,
    edits: &[Edit<L::Body>],
)
where
    L::Body: Copy,
    ensures left { Agree (L.Table.view left.new) (replay (L.Table.view left.old) edits.now) }
    ensures right { Agree (R.Table.view right.new) (replay (R.Table.view right.old) edits.now) }
    ensures alike { Agree (L.Table.view left.old) (R.Table.view right.old) → Alike (L.Table.view left.new) (R.Table.view right.new) }
{
    apply(left, edits);
    apply(right, edits);
}
