// A frame for each command with the order that it asks for, and frames that fail at each question.
use crate::MU;
use orders::{AnswerRefusal, Command, Order, Refusal, SetUpRefusal, ShowRefusal, ask, read};
use records::TimeSet;
use std::alloc::{AllocError, Global};
use std::process::Abort;
use std::test::Fail;

// A frame for TID 0001 with that body, whose last two bytes are off by `sum` and `last`.
fn frame(heap: Global, command: u8, body: &[u8], sum: u8, last: u8) -> Result<Vec<u8>, AllocError> {
    let length = body.len().wrapping_add(11);
    let mut bytes = Vec::new(heap);
    let head = [
        7,
        3,
        0,
        0,
        (length / 256 % 256) as u8,
        (length % 256) as u8,
        0,
        1,
        command,
    ];
    bytes.extend_from_slice(&head)?;
    bytes.extend_from_slice(body)?;
    let right = line::checksum(&bytes);
    bytes.push(right.wrapping_add(sum))?;
    bytes.push(4u8.wrapping_add(last))?;
    Ok(bytes)
}

// The number of the refusal, if the frame is refused.
fn number(frame: &[u8]) -> Option<u8> {
    ask(frame, MU).err().map(u8::from)
}

fn check_number(
    rt: &impl Abort,
    heap: Global,
    command: u8,
    body: &[u8],
    wanted: Option<u8>,
) -> Result<(), Fail> {
    let bytes = frame(heap, command, body, 0, 0)?;
    assert_eq!(rt; number(&bytes), wanted);
    Ok(())
}

#[test]
fn every_command(rt: HostRuntime) -> Result<(), Fail> {
    let heap = rt.alloc();
    for command in [
        2u8, 4, 6, 0x22, 0x26, 0x2A, 0x2E, 0x2F, 0x40, 0x41, 0x42, 0x48, 0x49, 0x4A,
    ] {
        check_number(&rt, heap, command, &[], None)?;
        check_number(&rt, heap, command, &[0], Some(0x05))?;
    }
    for command in [1u8, 3, 8] {
        check_number(&rt, heap, command, &[0, 0, 0, 0], None)?;
        check_number(&rt, heap, command, &[0, 0, 0], Some(0x05))?;
    }
    check_number(&rt, heap, 5, &[0; 8], None)?;
    for (command, lowest, highest) in [
        (0x21u8, 2u8, 255u8),
        (0x23, 2, 255),
        (0x25, 2, 120),
        (0x27, 2, 120),
        (0x29, 2, 255),
        (0x2B, 2, 255),
        (0x2D, 0, 99),
    ] {
        check_number(&rt, heap, command, &[lowest], None)?;
        check_number(&rt, heap, command, &[highest], None)?;
        check_number(&rt, heap, command, &[], Some(0x05))?;
        if lowest > 0 {
            check_number(&rt, heap, command, &[1], Some(0x09))?;
        }
        if highest < 255 {
            check_number(&rt, heap, command, &[highest.wrapping_add(1)], Some(0x09))?;
        }
    }
    Ok(())
}

#[test]
fn counted_bodies(rt: HostRuntime) -> Result<(), Fail> {
    let heap = rt.alloc();
    check_number(&rt, heap, 0x20, &[1, 2, 8, 0, 17, 30], None)?;
    check_number(&rt, heap, 0x20, &[2, 2, 8, 0, 17, 30, 3, 8, 0, 8, 0], None)?;
    check_number(
        &rt,
        heap,
        0x20,
        &[2, 2, 8, 0, 17, 30, 3, 22, 0, 6, 0],
        Some(0x09),
    )?;
    check_number(
        &rt,
        heap,
        0x24,
        &[
            1, 2, 0, 0, 0, 0, 0, 0, 0, 0, 0, 0, 0, 0, 0, 0, 0, 0, 0, 0, 0, 0, 0, 0, 0, 0,
        ],
        None,
    )?;
    check_number(
        &rt,
        heap,
        0x28,
        &[1, 2, 120, 0, 0, 0, 0, 0, 0, 0, 255],
        None,
    )?;
    check_number(
        &rt,
        heap,
        0x28,
        &[1, 2, 121, 0, 0, 0, 0, 0, 0, 0, 255],
        Some(0x09),
    )?;
    check_number(&rt, heap, 0x2C, &[1, 0, 12, 25], None)?;
    for command in [0x20u8, 0x24, 0x28, 0x2C] {
        check_number(&rt, heap, command, &[], Some(0x05))?;
        check_number(&rt, heap, command, &[0], Some(0x09))?;
        check_number(&rt, heap, command, &[1], Some(0x05))?;
        check_number(&rt, heap, command, &[1, 0], Some(0x05))?;
    }
    Ok(())
}

#[test]
fn the_earlier_question_decides(rt: HostRuntime) -> Result<(), Fail> {
    let heap = rt.alloc();
    assert_eq!(rt; number(&frame(heap, 0x04, &[], 0, 0)?), None);
    assert_eq!(rt; number(&frame(heap, 0x04, &[], 1, 1)?), Some(0x05));
    assert_eq!(rt; number(&frame(heap, 0x99, &[1], 1, 0)?), Some(0x04));
    assert_eq!(rt; number(&frame(heap, 0x99, &[1], 0, 0)?), Some(0x08));
    assert_eq!(rt; number(&frame(heap, 0x2C, &[0, 0], 0, 0)?), Some(0x05));
    assert!(rt; Command::try_from(0x2Cu8).is_ok());
    assert_eq!(rt; u8::from(Refusal::CardTaken), 0x40);
    assert_eq!(rt; u8::from(SetUpRefusal::Ranges), 0x61);
    assert_eq!(rt; u8::from(AnswerRefusal::Buffer), 0x63);
    assert_eq!(rt; u8::from(ShowRefusal::Moment), 0x65);
    Ok(())
}

// The byte of the command that a frame is read as, and the number that its order has, if it has one.
fn numbers(heap: Global, command: u8, body: &[u8]) -> Result<(u8, Option<u32>), Fail> {
    let bytes = frame(heap, command, body, 0, 0)?;
    let Ok((order, _)) = read(&bytes, MU) else {
        return Err(Fail::new("the frame is refused"));
    };
    let number = match order {
        Order::DeleteUser(number) | Order::QueryUser(number) | Order::ReadUser(number) => {
            Some(number)
        }
        Order::DeleteTimeSet(number) | Order::ReadTimeSet(number) => Some(number),
        Order::DeleteZone(number) | Order::ReadZone(number) => Some(number),
        Order::DeleteGroup(number) | Order::ReadGroup(number) => Some(number),
        Order::DeleteHoliday(number) => Some(number),
        _ => None,
    };
    Ok((u8::from(order.command()), number))
}

#[test]
fn what_a_frame_asks(rt: HostRuntime) -> Result<(), Fail> {
    let heap = rt.alloc();
    for command in [
        2u8, 4, 6, 0x22, 0x26, 0x2A, 0x2E, 0x2F, 0x40, 0x41, 0x42, 0x48, 0x49, 0x4A,
    ] {
        let (byte, _) = numbers(heap, command, &[])?;
        assert_eq!(rt; byte, command);
    }
    for command in [1u8, 3, 8] {
        let (byte, number) = numbers(heap, command, &[1, 2, 3, 4])?;
        assert_eq!(rt; byte, command);
        assert_eq!(rt; number, Some(0x01020304));
    }
    for command in [0x21u8, 0x23, 0x25, 0x27, 0x29, 0x2B, 0x2D] {
        let (byte, number) = numbers(heap, command, &[77])?;
        assert_eq!(rt; byte, command);
        assert_eq!(rt; number, Some(77));
    }
    Ok(())
}

#[test]
fn records_at_their_place(rt: HostRuntime) -> Result<(), Fail> {
    let heap = rt.alloc();
    let sets = frame(heap, 0x20, &[2, 7, 8, 0, 17, 30, 9, 8, 0, 8, 0], 0, 0)?;
    let Ok((Order::PutTimeSets(place), bytes)) = read(&sets, MU) else {
        return Err(Fail::new("no time sets"));
    };
    assert_eq!(rt; place.count, 2);
    for (turn, number) in [(0usize, 7u32), (1, 9)] {
        let Some(item) = place.record::<TimeSet>(MU, bytes, turn) else {
            return Err(Fail::new("no record"));
        };
        assert_eq!(rt; item.number, number);
    }
    assert!(rt; place.record::<TimeSet>(MU, bytes, 2).is_none());
    Ok(())
}

// The body of an order that registers a user with that lowest byte of its number, and that byte OVERWRITE.
fn user_body(low: u8, overwrite: u8) -> [u8; 85] {
    let mut body = [0u8; 85];
    body[2] = 3;
    body[3] = low;
    body[4] = overwrite;
    body
}

fn check_user(rt: &impl Abort, heap: Global, overwrite: u8) -> Result<(), Fail> {
    let bytes = frame(heap, 0x07, &user_body(0xE8, overwrite), 0, 0)?;
    let Ok((Order::RegisterUser(new), beside)) = read(&bytes, MU) else {
        return Err(Fail::new("no user"));
    };
    assert_eq!(rt; new.number, 1000);
    assert_eq!(rt; new.overwrite, overwrite == 1);
    let Some(user) = new.user(MU, beside) else {
        return Err(Fail::new("no user at its place"));
    };
    assert_eq!(rt; user.number, 1000);
    Ok(())
}

#[test]
fn a_user_with_overwrite(rt: HostRuntime) -> Result<(), Fail> {
    let heap = rt.alloc();
    check_user(&rt, heap, 0)?;
    check_user(&rt, heap, 1)?;
    check_number(&rt, heap, 0x07, &user_body(0xE8, 2), Some(0x09))?;
    check_number(&rt, heap, 0x07, &user_body(0xE9, 1), Some(0x09))
}
