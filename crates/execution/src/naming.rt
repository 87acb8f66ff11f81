// Are the records there that a record names?
ghost use Rattle.std.specs.Prelude.{◌≡◌, ℕ, List};
ghost use Rattle.execution.specs.Naming.{there, all_there, sets_named, zones_named, groups_named};

use records::{Group, Named, User, Zone};
use tables::table::Table;

// A record that names others by their numbers.
pub(crate) trait Naming: Sized {
    ghost names: { Self → List ℕ };

    fn names_there<T: Table>(&self, table: &T) -> bool
        ensures { result ≡ all_there (T.Table.view table.now).at (names self.now) };
}

fn is_there<T: Table>(table: &T, number: u8) -> bool
    ensures { result ≡ there (T.Table.view table.now).at number }
{
    match Named::from(number) {
        Named::Never | Named::Always => true,
        Named::Record(number) => table.get(u32::from(number)).is_some(),
    }
}

fn are_there<T: Table>(table: &T, numbers: &[u8]) -> bool
    ensures { result ≡ all_there (T.Table.view table.now).at numbers.now }
{
    numbers.iter().all(|number| is_there(table, *number))
}

impl Naming for User {
    ghost names = { groups_named };

    fn names_there<T: Table>(&self, groups: &T) -> bool {
        are_there(groups, self.groups())
    }
}

impl Naming for Group {
    ghost names = { zones_named };

    fn names_there<T: Table>(&self, zones: &T) -> bool {
        are_there(zones, self.zones())
    }
}

impl Naming for Zone {
    ghost names = { sets_named };

    fn names_there<T: Table>(&self, time_sets: &T) -> bool {
        self.rows()
            .iter()
            .all(|row| are_there(time_sets, row.sets()))
    }
}
