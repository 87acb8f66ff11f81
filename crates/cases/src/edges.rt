// The edges of each field of each record.
use crate::MU;
use records::{Group, Holiday, Misfit, Record, TimeSet, User, Zone};
use std::process::Abort;
use std::test::Fail;

// Reads bytes, and checks that they are in range or not, and that writing gives them back.
fn check_record<R: Record + Drop>(
    rt: &impl Abort,
    bytes: &[u8],
    in_range: bool,
) -> Result<(), Fail> {
    match R::from_bytes(MU, bytes) {
        Err(misfit) => {
            assert_eq!(rt; misfit, Misfit::Range);
            assert!(rt; !in_range);
            Ok(())
        }
        Ok(item) => {
            let mut out = [0xEEu8; 100];
            let written = R::write(&item, &mut out);
            assert!(rt; in_range);
            let size = written?;
            assert_eq!(rt; size, bytes.len());
            assert!(rt; size < 100);
            assert_eq!(rt; &out[0..size], bytes);
            assert_eq!(rt; out[size], 0xEE);
            Ok(())
        }
    }
}

#[test]
fn time_sets(rt: HostRuntime) -> Result<(), Fail> {
    for (bytes, in_range) in [
        ([2u8, 0, 0, 23, 59], true),
        ([255, 8, 0, 8, 0], true),
        ([1, 8, 0, 17, 30], false),
        ([0, 8, 0, 17, 30], false),
        ([2, 22, 0, 6, 0], false),
        ([2, 8, 1, 8, 0], false),
        ([2, 24, 0, 24, 0], false),
        ([2, 8, 60, 9, 0], false),
        ([2, 8, 0, 24, 0], false),
        ([2, 8, 0, 8, 60], false),
    ] {
        check_record::<TimeSet>(&rt, &bytes, in_range)?;
    }
    assert!(rt; TimeSet::from_bytes(MU, &[2, 8, 0, 9]).is_err());
    Ok(())
}

#[test]
fn holidays(rt: HostRuntime) -> Result<(), Fail> {
    for (bytes, in_range) in [
        ([0u8, 12, 25], true),
        ([99, 2, 29], true),
        ([100, 12, 25], false),
        ([0, 2, 30], false),
        ([0, 0, 1], false),
        ([0, 13, 1], false),
        ([0, 4, 31], false),
        ([0, 4, 0], false),
    ] {
        check_record::<Holiday>(&rt, &bytes, in_range)?;
    }
    Ok(())
}

#[test]
fn groups_and_zones(rt: HostRuntime) -> Result<(), Fail> {
    for (number, zone, in_range) in [
        (2u8, 0u8, true),
        (255, 120, true),
        (2, 121, false),
        (1, 2, false),
        (0, 2, false),
    ] {
        for door in 1..9usize {
            let mut bytes = [0u8; 10];
            bytes[0] = number;
            bytes[door] = zone;
            bytes[9] = 0xA5;
            check_record::<Group>(&rt, &bytes, in_range)?;
        }
    }
    for (number, in_range) in [(2u8, true), (120, true), (121, false), (1, false)] {
        let mut bytes = [7u8; 25];
        bytes[0] = number;
        bytes[24] = 255;
        check_record::<Zone>(&rt, &bytes, in_range)?;
    }
    Ok(())
}

// A user whose bytes are all different.
fn user() -> [u8; 84] {
    let mut bytes = [0u8; 84];
    for (place, byte) in bytes.iter_mut().enumerate() {
        *byte = 100u8.wrapping_add(place as u8);
    }
    bytes[0] = 0;
    bytes[1] = 0;
    bytes[2] = 3;
    bytes[3] = 0xE8;
    bytes[43] = 0;
    bytes[54] = 1;
    bytes[55] = 5;
    bytes
}

// The same user with a byte changed.
fn changed_user(place: usize, value: u8) -> [u8; 84] {
    let mut bytes = user();
    if let Some(byte) = bytes.get_mut(place) {
        *byte = value;
    }
    bytes
}

#[test]
fn users(rt: HostRuntime) -> Result<(), Fail> {
    for (place, byte, in_range) in [
        (3usize, 0xE9u8, false),
        (43, 1, false),
        (43, 2, false),
        (54, 0, true),
        (54, 2, false),
        (55, 6, false),
    ] {
        check_record::<User>(&rt, &changed_user(place, byte), in_range)?;
    }
    check_record::<User>(&rt, &user(), true)?;
    let mut nobody = changed_user(2, 0);
    nobody[3] = 0;
    check_record::<User>(&rt, &nobody, false)?;
    nobody[3] = 1;
    check_record::<User>(&rt, &nobody, true)
}

fn set_window(user: &mut [u8], window: &[u8]) {
    if user.len() == 84 && window.len() == 11 {
        user[43..54].copy_from_slice(window);
    }
}

#[test]
fn windows(rt: HostRuntime) -> Result<(), Fail> {
    for (window, in_range) in [
        ([1u8, 24, 2, 29, 8, 0, 24, 2, 29, 8, 0], true),
        ([1, 0, 1, 1, 0, 0, 99, 12, 31, 23, 59], true),
        ([1, 24, 2, 29, 8, 1, 24, 2, 29, 8, 0], false),
        ([1, 23, 2, 29, 8, 0, 24, 2, 29, 8, 0], false),
        ([1, 24, 2, 29, 8, 0, 100, 2, 28, 8, 0], false),
        ([1, 24, 2, 29, 24, 0, 24, 3, 1, 8, 0], false),
        ([0, 255, 255, 255, 255, 255, 254, 253, 252, 251, 250], true),
    ] {
        let mut bytes = user();
        set_window(&mut bytes, &window);
        check_record::<User>(&rt, &bytes, in_range)?;
    }
    Ok(())
}
