// A make of table with a place for each number: `get`, `put`, `remove` and `count` take constant time, and `next` and `clear` look
// at each place that they pass.
ghost use Rattle.std.specs.Prelude.{◌≡◌, ℕ, suc, ◌+◌, ◌-◌, ◌^◌, ◌<◌, true, false, IfOk, Some, None, vec_len, Option, MatchOption, slice_index_or, slice_set};
ghost use Rattle.tables.specs.declared.entry.Entry.{Entry};
ghost use Rattle.tables.specs.Maps.{many, one, inside, start, Next, put_answer};
ghost use Rattle.tables.specs.declared.edit.Edit.TheVariants.{Put};
ghost use Rattle.tables.specs.Placed.{slot, slots_view, Named};
ghost use Rattle.tables.specs.Replays.{edited, Agree};
ghost use Rattle.std.proofs.Common.{arith, rules};
ghost use Rattle.tables.specs.Slotted.{slot_within, slot_named};

use crate::entry::Entry;
use crate::range::Range;
use crate::table::Table;
use std::alloc::{AllocError, Global};

#[derive(Drop)]
pub struct Slots<B> {
    range: Range,
    places: Vec<Option<Entry<B>>>,
    // How many places are full, which no length tells.
    held: usize,
    ghost sized: { vec_len places ≡ suc range.last - range.first },
    ghost each: { Named range.first places.items },
    ghost counted: { held ≡ many (slot range.first places.items) (suc range.last) },
}

fn empty_places<B: Drop>(heap: Global, size: usize) -> Result<Vec<Option<Entry<B>>>, AllocError>
    ensures { IfOk result (λ v. (vec_len v ≡ size) × ((k : ℕ) → slice_index_or v.items k None ≡ None)) }
{
    // Room for `size` places and no more: `resize_with` of an empty `Vec` takes more where few are wanted.
    let mut places = Vec::with_capacity(heap, size)?;
    places.resize_with(size, || None)?;
    Ok(places)
}

fn empty_all<B: Drop>(places: &mut [Option<Entry<B>>])
    ensures { (k : ℕ) → slice_index_or places.new k None ≡ None }
{
    places.fill_with(|| None);
}

// The index of the first place from `from` on that has a record.
fn first_full<B>(places: &[Option<Entry<B>>], from: usize) -> Option<usize>
    ensures { Next (λ k. slice_index_or places.now k None) from result }
{
    let rest = places.get(from..)?;
    let ahead = rest.iter().position(|place| place.is_some())?;
    Some(from + ahead)
}

fn one_if<B>(place: &Option<Entry<B>>) -> usize
    ensures { result ≡ one place.now }
{
    usize::from(place.is_some())
}

impl<B: Drop> Slots<B> {
    // The place of a number of the range.
    fn place(&self, number: u32) -> Option<usize>
        ensures { MatchOption result (inside self.now.range.first self.now.range.last number ≡ false) (λ at. (inside self.now.range.first self.now.range.last number ≡ true) × (number ≡ self.now.range.first + at) × (at < vec_len self.now.places)) }
    {
        if !self.range.holds(number) {
            return None;
        }
        Some((number - self.range.first) as usize)
    }

    // The place from which a walk looks on.
    fn place_above(&self, above: Option<u32>) -> usize
        ensures { result ≡ start above - self.now.range.first }
    {
        match above {
            Some(number) => (number as usize + 1).saturating_sub(self.range.first as usize),
            None => 0,
        }
    }

    // Puts a record or none into a place, and keeps the count.
    fn store(&mut self, at: usize, place: Option<Entry<B>>)
        requires within { at < vec_len self.old.places }
        requires number { (e : Entry B) → place ≡ Some e → e.number ≡ self.old.range.first + at }
        ensures items { self.new.places.items ≡ slice_set self.old.places.items at place }
        ensures range { self.new.range ≡ self.old.range }
    {
        let gone = one_if(&self.places[at]);
        let come = one_if(&place);
        self.places[at] = place;
        self.held = self.held - gone + come;
    }
}

impl<B: Drop> Table for Slots<B> {
    type Body = B;

    ghost view = { λ t. slots_view t.range t.places.items };

    ghost bounded = { λ t. t.range.fits };

    ghost within = { λ t n full. let within = slot_within t.range.first t.places.items n full in (within.0, omega arith) };

    ghost named = { λ t. slot_named t.range.first t.places.items t.each };

    fn new(heap: Global, first: u32, last: u32) -> Result<Slots<B>, AllocError> {
        let range = Range::new(first, last);
        let places = empty_places(heap, range.size())?;
        Ok(Slots {
            range,
            places,
            held: 0,
        })
    }

    fn first(&self) -> u32 {
        self.range.first
    }

    fn last(&self) -> u32 {
        self.range.last
    }

    fn get(&self, number: u32) -> Option<&Entry<B>> {
        self.places[self.place(number)?].as_ref()
    }

    fn put(&mut self, item: Entry<B>) -> Result<(), Entry<B>>
        ensures answer { result ≡ put_answer (slots_view self.old.range self.old.places.items) item }
        ensures change { Agree (slots_view self.new.range self.new.places.items) (edited (slots_view self.old.range self.old.places.items) (Put item)) }
    {
        match self.place(item.number) {
            Some(at) => {
                self.store(at, Some(item));
                Ok(())
            }
            None => Err(item),
        }
    }

    fn remove(&mut self, number: u32) {
        if let Some(at) = self.place(number) {
            self.store(at, None);
        }
    }

    fn clear(&mut self) {
        empty_all(&mut self.places);
        self.held = 0;
    }

    fn count(&self) -> usize {
        self.held
    }

    fn next(&self, above: Option<u32>) -> Option<u32> {
        let at = first_full(&self.places, self.place_above(above))?;
        Some(self.range.first + at as u32)
    }
}
