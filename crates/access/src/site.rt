// What stands in five tables, whatever their makes are.
ghost use Rattle.access.specs.Standing.{Views, views_by};

use crate::makes::{Makes, Tables};

pub trait Site {
    ghost views: { Self → Views };
}

impl<M: Makes> Site for Tables<M> {
    ghost views = { views_by M.Users.Table.view M.TimeSets.Table.view M.Zones.Table.view M.Groups.Table.view M.Holidays.Table.view };
}
