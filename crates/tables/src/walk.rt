// A walk over the records of a table, in ascending numbers.
ghost use Rattle.std.specs.Prelude.{◌≡◌, None, ⊤};
ghost use Rattle.std.specs.Iterator.{MakesProgress, YieldsFirstRef, item_count};
ghost use Rattle.tables.specs.Maps.{start};
ghost use Rattle.tables.specs.Walks.{records_left};

use crate::entry::Entry;
use crate::table::Table;

#[derive(Drop)]
pub struct Walk<'t, T> {
    pub(crate) table: &'t T,
    // The number of the last record met.
    pub(crate) above: Option<u32>,
}

impl<'t, T: Table> Walk<'t, T> {
    pub(crate) fn new(table: &'t T) -> Walk<'t, T>
        ensures table { result.table.now ≡ table.now }
        ensures above { result.above ≡ None }
    {
        Walk { table, above: None }
    }
}

impl<'t, T: Table + 't> Iterator for Walk<'t, T>
where
    T::Body: 't,
{
    type Item = &'t Entry<T::Body>;

    ghost next_gives = { YieldsFirstRef (λ w. records_left (T.Table.view w.table.now) (start w.above)) };

    ghost remaining = { item_count (λ w. records_left (T.Table.view w.table.now) (start w.above)) };

    fn next(&mut self) -> Option<&'t Entry<T::Body>>
        ensures steps { YieldsFirstRef (λ w. records_left (T.Table.view w.table.now) (start w.above)) self.old result self.new }
        ensures goes { MakesProgress (λ _. ⊤) (item_count (λ w. records_left (T.Table.view w.table.now) (start w.above))) self.old result self.new }
    {
        let number = self.table.next(self.above)?;
        self.above = Some(number);
        self.table.get(number)
    }
}
