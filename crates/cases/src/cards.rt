// Cards at the doors of a small site, for two bundles of makes.
use crate::MU;
use access::answer::Answer;
use access::events::answer;
use access::{Makes, Tables};
use calendar::{Date, Minute, TimeOfDay};
use doors::Door;
use records::{Group, Holiday, Record, TimeSet, User, Zone};
use std::alloc::{AllocError, Global};
use std::process::Abort;
use std::test::Fail;
use tables::packed::Packed;
use tables::slots::Slots;
use tables::table::Table;

// Users in a packed list and the rest in numbered places.
struct Product;

impl Makes for Product {
    type Users = Packed<User>;

    type TimeSets = Slots<TimeSet>;

    type Zones = Slots<Zone>;

    type Groups = Slots<Group>;

    type Holidays = Slots<Holiday>;
}

// The other way round.
struct Turned;

impl Makes for Turned {
    type Users = Slots<User>;

    type TimeSets = Packed<TimeSet>;

    type Zones = Packed<Zone>;

    type Groups = Packed<Group>;

    type Holidays = Packed<Holiday>;
}

fn bare<M: Makes>(heap: Global) -> Result<Tables<M>, AllocError> {
    Ok(Tables {
        users: M::Users::new(heap, 1, MU)?,
        time_sets: M::TimeSets::new(heap, 2, 255)?,
        zones: M::Zones::new(heap, 2, 120)?,
        groups: M::Groups::new(heap, 2, 255)?,
        holidays: M::Holidays::new(heap, 0, 99)?,
    })
}

fn put<R: Record, T: Table<Body = R>>(
    rt: &impl Abort,
    table: &mut T,
    bytes: &[u8],
) -> Result<(), Fail>
where
    R: Drop,
{
    let Ok(item) = R::from_bytes(MU, bytes) else {
        return Err(Fail::new("no record"));
    };
    assert!(rt; table.put(item).is_ok());
    Ok(())
}

// The bytes of a user with that number, card, status and groups; used with a window, it is 29 February 2024, 08:00 to 09:00.
fn user(number: u8, card: u8, status: u8, groups: [u8; 4], windowed: bool) -> [u8; 84] {
    let mut bytes = [0u8; 84];
    bytes[3] = number;
    bytes[11] = card;
    bytes[54] = status;
    bytes[56..60].copy_from_slice(&groups);
    if windowed {
        bytes[43..54].copy_from_slice(&[1, 24, 2, 29, 8, 0, 24, 2, 29, 9, 0]);
    }
    bytes
}

// Time set 2 from 08:00 to 17:30, in zone 2 from Monday to Friday as the first set and on Saturday as the third; group 2
// opens door 1 by zone 2 and door 8 always, and group 3 opens none.
fn site<M: Makes>(rt: &impl Abort, heap: Global) -> Result<Tables<M>, Fail> {
    let mut tables: Tables<M> = bare(heap)?;
    put(rt, &mut tables.time_sets, &[2, 8, 0, 17, 30])?;
    let rows = [
        2u8, 2, 0, 0, 2, 0, 0, 2, 0, 0, 2, 0, 0, 2, 0, 0, 0, 0, 2, 0, 0, 0, 0, 0, 0,
    ];
    put(rt, &mut tables.zones, &rows)?;
    put(rt, &mut tables.groups, &[2, 2, 0, 0, 0, 0, 0, 0, 1, 0x81])?;
    put(rt, &mut tables.groups, &[3, 1, 1, 1, 1, 1, 1, 1, 1, 0])?;
    put(rt, &mut tables.holidays, &[0, 12, 25])?;
    put(rt, &mut tables.users, &user(1, 0xA, 1, [2, 0, 0, 0], false))?;
    put(rt, &mut tables.users, &user(2, 0xB, 0, [1, 1, 1, 1], true))?;
    put(rt, &mut tables.users, &user(3, 0xC, 1, [0, 0, 0, 2], true))?;
    put(rt, &mut tables.users, &user(4, 0xD, 1, [0, 0, 0, 1], false))?;
    put(rt, &mut tables.users, &user(5, 0xE, 1, [3, 9, 0, 0], false))?;
    put(rt, &mut tables.users, &user(6, 0, 1, [1, 0, 0, 0], false))?;
    Ok(tables)
}

// What a card gets at a door in 2024.
fn shown<M: Makes>(
    tables: &Tables<M>,
    card: u64,
    door: u8,
    day: (u8, u8),
    time: (u8, u8),
) -> Result<Answer, Fail> {
    let Some(date) = Date::new(2024, day.0, day.1) else {
        return Err(Fail::new("no date"));
    };
    let Some(clock) = TimeOfDay::new(time.0, time.1) else {
        return Err(Fail::new("no time"));
    };
    let Ok(door) = Door::try_from(door) else {
        return Err(Fail::new("no door"));
    };
    Ok(answer(tables, card, door, &Minute::new(date, clock)))
}

fn check_events<M: Makes>(rt: &impl Abort, heap: Global) -> Result<(), Fail> {
    let tables: Tables<M> = site(rt, heap)?;
    for (card, door, day, time, code, user) in [
        // 29 February 2024 is a Thursday
        (0xAu64, 1u8, (2u8, 29u8), (8u8, 0u8), 0x00u8, 1u32),
        (0xA, 1, (2, 29), (17, 30), 0x00, 1),
        (0xA, 1, (2, 29), (7, 59), 0x16, 1),
        (0xA, 1, (2, 29), (17, 31), 0x16, 1),
        (0xA, 2, (2, 29), (8, 0), 0x0B, 1),
        (0xA, 8, (2, 29), (3, 0), 0x00, 1),
        // the third set on a Saturday, none on a Sunday
        (0xA, 1, (3, 2), (10, 0), 0x00, 1),
        (0xA, 1, (3, 3), (10, 0), 0x16, 1),
        // a holiday on a Wednesday, and the day before
        (0xA, 1, (12, 25), (10, 0), 0x16, 1),
        (0xA, 1, (12, 24), (10, 0), 0x00, 1),
        // off, although the window is past too
        (0xB, 1, (3, 1), (10, 0), 0x08, 2),
        // both ends of the window belong to it
        (0xC, 1, (2, 29), (7, 59), 0x09, 3),
        (0xC, 1, (2, 29), (8, 0), 0x00, 3),
        (0xC, 1, (2, 29), (9, 0), 0x00, 3),
        (0xC, 1, (2, 29), (9, 1), 0x09, 3),
        // group 1 opens every door always
        (0xD, 5, (3, 3), (23, 59), 0x00, 4),
        // a group that opens none, and one that is not there
        (0xE, 1, (2, 29), (10, 0), 0x0B, 5),
        // nobody, and no card
        (0xF, 1, (2, 29), (10, 0), 0x07, 0),
        (0, 1, (2, 29), (10, 0), 0x07, 0),
    ] {
        let told = shown(&tables, card, door, day, time)?;
        assert_eq!(rt; u8::from(told.event()), code);
        assert_eq!(rt; told.user(), user);
    }
    Ok(())
}

// What is deleted may still be named, and counts as never.
fn check_deleted<M: Makes>(rt: &impl Abort, heap: Global) -> Result<(), Fail> {
    let mut tables: Tables<M> = site(rt, heap)?;
    tables.time_sets.remove(2);
    let no_set = shown(&tables, 0xA, 1, (2, 29), (10, 0))?;
    assert_eq!(rt; u8::from(no_set.event()), 0x16);
    tables.groups.remove(2);
    let no_group = shown(&tables, 0xA, 1, (2, 29), (10, 0))?;
    assert_eq!(rt; u8::from(no_group.event()), 0x0B);
    put(rt, &mut tables.users, &user(9, 0xD, 0, [0, 0, 0, 0], false))?;
    let shared = shown(&tables, 0xD, 1, (2, 29), (10, 0))?;
    assert_eq!(rt; shared.user(), 4);
    Ok(())
}

#[test]
fn events(rt: HostRuntime) -> Result<(), Fail> {
    check_events::<Product>(&rt, rt.alloc())?;
    check_events::<Turned>(&rt, rt.alloc())
}

#[test]
fn deleted_records(rt: HostRuntime) -> Result<(), Fail> {
    check_deleted::<Product>(&rt, rt.alloc())?;
    check_deleted::<Turned>(&rt, rt.alloc())
}
