// The five tables, each of any make.
use records::{Group, Holiday, TimeSet, User, Zone};
use tables::table::Table;

// Which make of table serves each kind of record.
pub trait Makes {
    type Users: Table<Body = User> + Drop;

    type TimeSets: Table<Body = TimeSet> + Drop;

    type Zones: Table<Body = Zone> + Drop;

    type Groups: Table<Body = Group> + Drop;

    type Holidays: Table<Body = Holiday> + Drop;
}

#[derive(Drop)]
pub struct Tables<M: Makes> {
    pub users: M::Users,
    pub time_sets: M::TimeSets,
    pub zones: M::Zones,
    pub groups: M::Groups,
    pub holidays: M::Holidays,
}
