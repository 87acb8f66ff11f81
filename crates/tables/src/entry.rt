// A record as a table keeps it.
use crate::ordered::Keyed;
use std::cmp::Ordering;

// Its number is a plain field, so that the invariant of a table can speak of it.
#[derive(Clone, Copy, Drop)]
pub struct Entry<B> {
    pub number: u32,
    pub body: B,
}

impl<B> Keyed for Entry<B> {
    type Key = u32;

    ghost rank = { λ e. e.number };

    ghost sought = { λ k. k };

    fn compare(&self, key: &u32) -> Ordering {
        self.number.cmp(key)
    }
}
