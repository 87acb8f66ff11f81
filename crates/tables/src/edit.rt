// A change of a table, as data.
use crate::entry::Entry;

#[derive(Clone, Copy, Drop)]
pub enum Edit<B> {
    Put(Entry<B>),
    Remove(u32),
    Clear,
}
