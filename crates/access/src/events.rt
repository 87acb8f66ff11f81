// Which event a card gets: the questions in their order, the first that decides.
ghost use Rattle.std.specs.Prelude.{◌≡◌};
ghost use Rattle.access.specs.Standing.{standing};
ghost use Rattle.access.specs.Events.{in_date, user_event, answered};
ghost use Rattle.access.specs.Grounds.{AccessLaws};

use crate::answer::Answer;
use crate::cards::holder;
use crate::groups::decide;
use crate::makes::{Makes, Tables};
use crate::site::Site;
use calendar::Minute;
use doors::{Door, Event};
use records::{Status, User, Window};

// The user told where nobody has the card: no Option, as in `Answer`.
const NOBODY: u32 = 0;

// Both ends belong to the window.
#[tactic(auto, using(calendar::proofs::Order::minute_le))]
fn in_date(window: &Window, minute: &Minute) -> bool
    ensures { result ≡ in_date window.now minute.now }
{
    match window {
        Window::Unused(_) => true,
        Window::Used(validity) => { validity.start() <= *minute && *minute <= validity.end() }
    }
}

fn user_event<M: Makes>(tables: &Tables<M>, user: &User, door: Door, minute: &Minute) -> Event
    ensures { result ≡ user_event (standing (⟦<Tables<M> as Site>⟧.views tables.now)) user.now door.number minute.now }
{
    if user.status() == Status::Off {
        return Event::UserOff;
    }
    if !in_date(&user.window(), minute) {
        return Event::OutOfDate;
    }
    decide(tables, user.groups(), door, minute)
}

// The door and the minute come one by one, as a host has them.
pub fn answer<M: Makes>(tables: &Tables<M>, card: u64, door: Door, minute: &Minute) -> Answer
    ensures value { result ≡ answered (standing (⟦<Tables<M> as Site>⟧.views tables.now)) card door.number minute.now }
    ensures laws { AccessLaws (standing (⟦<Tables<M> as Site>⟧.views tables.now)) card door.number minute.now result }
{
    match holder(&tables.users, card) {
        Some(found) => Answer {
            event: user_event(tables, &found.body, door, minute),
            user: found.number,
        },
        None => Answer {
            event: Event::UnknownCard,
            user: NOBODY,
        },
    }
}
