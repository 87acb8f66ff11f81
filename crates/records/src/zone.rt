// The rows of the week, Monday to Sunday, and the holiday row.
ghost use Rattle.std.specs.Prelude.{◌≡◌, ◌<◌, ◌≤◌, length, MatchOption, slice_index_or};

use crate::row::Row;

#[derive(Clone, Copy, PartialEq, Eq, Debug)]
pub struct Zone {
    pub(crate) rows: [Row; 8],
    ghost eight: { length rows ≡ 8 },
}

impl Zone {
    pub fn rows(&self) -> &[Row; 8]
        ensures { result.now ≡ self.now.rows }
    {
        &self.rows
    }

    // The row at a place: 0 to 6 are Monday to Sunday, 7 is the holiday row.
    pub fn row(&self, place: usize) -> Option<&Row>
        ensures { MatchOption result (8 ≤ place) (λ row. (place < 8) × ((d : Row) → row.now ≡ slice_index_or self.now.rows place d)) }
    {
        self.rows.get(place)
    }
}
