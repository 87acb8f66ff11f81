// A make of table that keeps its records packed, in ascending numbers: `get` and `next` take the logarithm of the records held, and
// `count` constant time. `put` and `remove` find the place as `get` does, and then move the records above it.
ghost use Rattle.std.specs.Prelude.{◌≡◌, suc, ◌-◌, ◌≤◌, vec_capacity};
ghost use Rattle.tables.specs.declared.edit.Edit.TheVariants.{Put};
ghost use Rattle.tables.specs.Maps.{start, put_answer};
ghost use Rattle.tables.specs.Replays.{edited, Agree};
ghost use Rattle.tables.specs.Order.{Located};
ghost use Rattle.tables.specs.Packing.{number_of, packed_view, Ascends, Within, Split};
ghost use Rattle.tables.specs.Packings.{find_within, find_named};

use crate::entry::Entry;
use crate::ordered;
use crate::range::Range;
use crate::table::Table;
use std::alloc::{AllocError, Global};

#[derive(Drop)]
pub struct Packed<B> {
    range: Range,
    // No map of the library: it asks for memory at a put, and no call after `new` may.
    records: Vec<Entry<B>>,
    ghost ascends: { Ascends records.items },
    ghost within: { Within range.first range.last records.items },
    ghost room: { suc range.last - range.first ≤ vec_capacity records },
}

impl<B: Drop> Packed<B> {
    // The place of the record with the number, or the place where it would stand.
    fn place(&self, number: u32) -> Result<usize, usize>
        ensures { Located number_of number self.now.records.items result }
    {
        ordered::search(&self.records, &number)
    }

    // The place of the first record with a number above the given one.
    fn above(&self, number: Option<u32>) -> usize
        ensures { Split (start number) self.now.records.items result }
    {
        match number {
            Some(number) => match self.place(number) {
                Ok(at) => at + 1,
                Err(at) => at,
            },
            None => 0,
        }
    }
}

impl<B: Drop> Table for Packed<B> {
    type Body = B;

    ghost view = { λ t. packed_view t.range t.records.items };

    ghost bounded = { λ t. t.range.fits };

    ghost within = { λ t n full. find_within t.range.first t.range.last t.records.items n t.within full };

    ghost named = { λ t. find_named t.records.items };

    fn new(heap: Global, first: u32, last: u32) -> Result<Packed<B>, AllocError> {
        let range = Range::new(first, last);
        let records = Vec::with_capacity(heap, range.size())?;
        Ok(Packed { range, records })
    }

    fn first(&self) -> u32 {
        self.range.first
    }

    fn last(&self) -> u32 {
        self.range.last
    }

    fn get(&self, number: u32) -> Option<&Entry<B>> {
        match self.place(number) {
            Ok(at) => Some(&self.records[at]),
            Err(_) => None,
        }
    }

    fn put(&mut self, item: Entry<B>) -> Result<(), Entry<B>>
        ensures answer { result ≡ put_answer (packed_view self.old.range self.old.records.items) item }
        ensures change { Agree (packed_view self.new.range self.new.records.items) (edited (packed_view self.old.range self.old.records.items) (Put item)) }
    {
        if !self.range.holds(item.number) {
            return Err(item);
        }
        match self.place(item.number) {
            Ok(at) => {
                self.records[at] = item;
                Ok(())
            }
            Err(at) => ordered::insert(&mut self.records, at, item),
        }
    }

    fn remove(&mut self, number: u32) {
        if let Ok(at) = self.place(number) {
            let _ = ordered::remove(&mut self.records, at);
        }
    }

    fn clear(&mut self) {
        self.records.clear();
    }

    fn count(&self) -> usize {
        self.records.len()
    }

    fn next(&self, above: Option<u32>) -> Option<u32> {
        let first = self.records.get(self.above(above))?;
        Some(first.number)
    }
}
