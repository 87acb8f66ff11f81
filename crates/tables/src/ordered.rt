// Search, insertion and removal in a slice of records that ascend strictly by their keys. No record is copied.
ghost use Rattle.std.specs.Prelude.{◌≡◌, ℕ, ◌<◌, ◌≤◌, length, if◌then◌else◌, Some, None, Ok, Err, vec_len, vec_capacity, MatchResult, nat_lt, slice_index_or};
ghost use Rattle.std.specs.List.{insert, remove};
ghost use Rattle.std.specs.Ordering.{MatchOrdering};
ghost use Rattle.tables.specs.Order.{Climbs, Located, Sunk, Raised, insertable};

use std::cmp::Ordering;

// A record with a key of a total order.
pub trait Keyed {
    type Key;

    // The order: where the key of a record stands, and where a key that is looked for stands.
    ghost rank: { Self → ℕ };

    ghost sought: { Self.Key → ℕ };

    fn compare(&self, key: &Self::Key) -> Ordering
        ensures { MatchOrdering result (rank self.now < sought key.now) (rank self.now ≡ sought key.now) (sought key.now < rank self.now) };
}

// The place of the record with the key, or the place where it would stand.
pub fn search<R: Keyed>(records: &[R], key: &R::Key) -> Result<usize, usize>
    ensures within { MatchResult result (λ i. i < length records.now) (λ i. i ≤ length records.now) }
    ensures located { Climbs R.Keyed.rank records.now → Located R.Keyed.rank (R.Keyed.sought key.now) records.now result }
{
    let mut low = 0;
    let mut high = records.len();
    // No `binary_search_by` of the library: it goes on to the end where the key is met on the way.
    while low < high {
        let mid = low + (high - low) / 2;
        match records[mid].compare(key) {
            Ordering::Less => low = mid + 1,
            Ordering::Equal => return Ok(mid),
            Ordering::Greater => high = mid,
        }
    }
    Err(low)
}

// Moves the last record down to the place `to`: the second half of an insertion.
pub fn sink<R>(records: &mut [R], to: usize)
    ensures { Sunk records.old to records.new }
{
    if to < records.len() {
        records[to..].rotate_right(1);
    }
}

// Moves the record of the place `from` up to the end: the first half of a removal.
pub fn raise<R>(records: &mut [R], from: usize)
    ensures { Raised records.old from records.new }
{
    if from < records.len() {
        records[from..].rotate_left(1);
    }
}

fn has_room<R>(records: &Vec<R>, at: usize) -> bool
    ensures { result ≡ insertable at (vec_len records.now) (vec_capacity records.now) }
{
    at <= records.len() && records.len() < records.capacity()
}

// Puts a record into a reserved place, and moves it down to the place `at`.
// Where no place is reserved, or `at` lies past the end, the record is handed back.
pub fn insert<R>(records: &mut Vec<R>, at: usize, item: R) -> Result<(), R>
    ensures answer { result ≡ (if insertable at (vec_len records.old) (vec_capacity records.old) then Ok tt else Err item) }
    ensures items { records.new.items ≡ (if insertable at (vec_len records.old) (vec_capacity records.old) then insert records.old.items at item else records.old.items) }
    ensures capacity { vec_capacity records.new ≡ vec_capacity records.old }
{
    if !has_room(records, at) {
        return Err(item);
    }
    records.push_reserved(item);
    sink(records, at);
    Ok(())
}

// Moves the record of the place `at` up to the end, and takes it out.
pub fn remove<R>(records: &mut Vec<R>, at: usize) -> Option<R>
    ensures value { (d : R) → result ≡ (if nat_lt at (vec_len records.old) then Some (slice_index_or records.old.items at d) else None) }
    ensures items { records.new.items ≡ (if nat_lt at (vec_len records.old) then remove records.old.items at else records.old.items) }
    ensures capacity { vec_capacity records.new ≡ vec_capacity records.old }
{
    if at >= records.len() {
        return None;
    }
    raise(records, at);
    records.pop()
}
