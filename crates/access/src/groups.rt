// What a user's groups say at a door and a minute.
ghost use Rattle.std.specs.Prelude.{◌≡◌, ◌-◌, ◌<◌};
ghost use Rattle.access.specs.Standing.{standing};
ghost use Rattle.access.specs.Covering.{opens, zone_for};
ghost use Rattle.access.specs.Events.{groups_event};

use crate::covers::{Meant, look_up, set_covers};
use crate::days::{row_of, row_sets};
use crate::makes::{Makes, Tables};
use crate::site::Site;
use calendar::Minute;
use doors::{Door, Event};
use records::Group;

// The door's place among the doors of a group: door 1 has the place 0.
fn place_of(door: Door) -> u8
    ensures place { result ≡ door.number - 1 }
    ensures bound { result < 8 }
{
    u8::from(door) - 1
}

fn opens(group: &Group, door: Door) -> bool
    ensures { result ≡ opens door.number group.now }
{
    (group.doors() >> place_of(door)) & 1 == 1
}

fn zone_for(group: &Group, door: Door) -> u8
    ensures { result ≡ zone_for door.number group.now }
{
    group.zones()[usize::from(place_of(door))]
}

// Does one of the groups open the door, and does one admit at this minute? The door and the minute come one by one, as in
// `answer`.
pub fn decide<M: Makes>(tables: &Tables<M>, groups: &[u8], door: Door, minute: &Minute) -> Event
    ensures { result ≡ groups_event (standing (⟦<Tables<M> as Site>⟧.views tables.now)) groups.now door.number minute.now }
{
    let day = row_of(&tables.holidays, &minute.date());
    let mut event = Event::DoorNotOpened;
    'groups: for number in groups {
        let group = match look_up(&tables.groups, *number) {
            Meant::Never => continue,
            Meant::Always => {
                event = Event::Admitted;
                break;
            }
            Meant::As(group) => group,
        };
        if !opens(&group.body, door) {
            continue;
        }
        event = Event::NotNow;
        let zone = match look_up(&tables.zones, zone_for(&group.body, door)) {
            Meant::Never => continue,
            Meant::Always => {
                event = Event::Admitted;
                break;
            }
            Meant::As(zone) => zone,
        };
        for set in row_sets(&zone.body, day) {
            if set_covers(&tables.time_sets, *set, minute) {
                event = Event::Admitted;
                break 'groups;
            }
        }
    }
    event
}
