// What every kind of record has: its bytes, and which bytes are in range.
ghost use Rattle.std.specs.Prelude.{◌≡◌, ℕ, ◌<◌, Bool, true, List, length, IfOk, Some, Option};
ghost use Rattle.tables.specs.declared.entry.Entry.{Entry};
ghost use Rattle.records.specs.Codec.{Reads, Writes};

use tables::entry::Entry;

// Why bytes are no record, or a record does not go into a buffer.
#[derive(Clone, Copy, PartialEq, Eq, Debug)]
pub enum Misfit {
    // Another number of bytes than the record has, or too small a buffer.
    Size,
    // A field is out of its range.
    Range,
}

// A kind of record, by its body. `last_user` is the last number of the user table, which bounds a
// user's number and nothing else.
pub trait Record: Sized {
    // How many bytes it has.
    ghost long: { ℕ };

    // Its bytes.
    ghost encoded: { Entry Self → List ℕ };

    // The record of bytes, where every invariant of its type holds of them.
    ghost decoded: { List ℕ → Option (Entry Self) };

    // Are bytes of that size in range, under that last user number?
    ghost ranges: { ℕ → List ℕ → Bool };

    // Does its field hold the number?
    ghost holds: { ℕ → Bool };

    // Which numbers a record may have, under that last user number.
    ghost numbers: { ℕ → ℕ → Bool };

    fn size() -> usize
        ensures { result ≡ long };

    fn from_bytes(last_user: u32, bytes: &[u8]) -> Result<Entry<Self>, Misfit>
        ensures read { Reads long encoded (ranges last_user) bytes.now result }
        ensures number { IfOk result (λ e. numbers last_user e.number ≡ true) };

    // Writes the record from the start of the buffer, and tells how many bytes it has.
    fn write(item: &Entry<Self>, out: &mut [u8]) -> Result<usize, Misfit>
        ensures { Writes long (holds item.now.number) (encoded item.now) out.old out.new result };

    ghost some_bytes: { 0 < long };

    ghost sized: { (e : Entry Self) → length (encoded e) ≡ long };

    // A record that may stand in a table reads back from its bytes.
    ghost reads_back: { (last : ℕ) (e : Entry Self) → numbers last e.number ≡ true → ranges last (encoded e) ≡ true };

    // A number that a record may have goes into its field.
    ghost fits: { (last n : ℕ) → numbers last n ≡ true → holds n ≡ true };

    // No two records have the same bytes.
    ghost apart: { (e f : Entry Self) → holds e.number ≡ true → holds f.number ≡ true → encoded e ≡ encoded f → e ≡ f };

    // A record that may stand in a table is decoded from its bytes.
    ghost decodes: { (last : ℕ) (e : Entry Self) → numbers last e.number ≡ true → decoded (encoded e) ≡ Some e };
}
