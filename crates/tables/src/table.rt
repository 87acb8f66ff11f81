// What every make of table does, by its map from numbers to records.
ghost use Rattle.std.specs.Prelude.{◌≡◌, ℕ, ◌^◌, ◌<◌, ◌≤◌, true, is_some, IfOk, Some, None, Option};
ghost use Rattle.std.specs.Option.{option_map};
ghost use Rattle.tables.specs.declared.entry.Entry.{Entry};
ghost use Rattle.tables.specs.declared.edit.Edit.TheVariants.{Put, Remove, Clear};
ghost use Rattle.tables.specs.Maps.{View, bare, put_answer, count_of, start, Next};
ghost use Rattle.tables.specs.Replays.{edited, Agree};

use crate::entry::Entry;
use crate::walk::Walk;
use std::alloc::{AllocError, Global};

pub trait Table: Sized {
    type Body;

    // The first and the last number, and the record under each number.
    ghost view: { Self → View Self.Body };

    // Takes all the memory that the table will ever need.
    fn new(heap: Global, first: u32, last: u32) -> Result<Self, AllocError>
        ensures { IfOk result (λ t. Agree (view t) (bare first last)) };

    fn first(&self) -> u32
        ensures { result ≡ (view self.now).low };

    fn last(&self) -> u32
        ensures { result ≡ (view self.now).high };

    fn get(&self, number: u32) -> Option<&Entry<Self::Body>>
        ensures { option_map (λ x. x.now) result ≡ (view self.now).at number };

    // Goes under the record's own number. Outside the range the record is handed back, and nothing changes.
    fn put(&mut self, item: Entry<Self::Body>) -> Result<(), Entry<Self::Body>>
        ensures answer { result ≡ put_answer (view self.old) item }
        ensures change { Agree (view self.new) (edited (view self.old) (Put item)) };

    // Outside the range there is nothing to remove, so nothing changes.
    fn remove(&mut self, number: u32)
        ensures { Agree (view self.new) (edited (view self.old) (Remove number)) };

    fn clear(&mut self)
        ensures { Agree (view self.new) (edited (view self.old) Clear) };

    // How many numbers have a record.
    fn count(&self) -> usize
        ensures { result ≡ count_of (view self.now) };

    // The smallest number above the given one that has a record; `None` is below every number.
    fn next(&self, above: Option<u32>) -> Option<u32>
        ensures { Next (view self.now).at (start above) result };

    // The records in ascending numbers.
    final fn iter(&self) -> Walk<'_, Self>
        ensures table { result.table.now ≡ self.now }
        ensures above { result.above ≡ None }
    {
        Walk::new(self)
    }

    // What holds of every make: no record outside the range, and under each number the record of that number.
    ghost bounded: { (t : Self) → (view t).high < 2 ^ 32 };

    ghost within: { (t : Self) (n : ℕ) → is_some ((view t).at n) ≡ true → ((view t).low ≤ n) × (n ≤ (view t).high) };

    ghost named: { (t : Self) (n : ℕ) (e : Entry Self.Body) → (view t).at n ≡ Some e → e.number ≡ n };
}
