// Doors and directions by their numbers, and what is told of numbers that none has.
use doors::{Direction, Door, NoDirection, NoDoor};
use std::test::Fail;

#[test]
fn doors_1_to_8(rt: HostRuntime) {
    for (number, real) in [(0u8, false), (1, true), (8, true), (9, false)] {
        assert_eq!(rt; Door::try_from(number).is_ok(), real);
    }
}

#[test]
fn in_and_out(rt: HostRuntime) -> Result<(), Fail> {
    assert_eq!(rt; Direction::try_from(1)?, Direction::In);
    assert_eq!(rt; Direction::try_from(2)?, Direction::Out);
    assert!(rt; Direction::try_from(3).is_err());
    Ok(())
}

#[test]
fn numbers_of_none(rt: HostRuntime) -> Result<(), Fail> {
    let told = format!(in rt.alloc(); "{}, {}", NoDoor(9), NoDirection(3))?;
    assert_eq!(rt;
        told.as_str(),
        "no door has the number 9, no direction has the number 3"
    );
    Ok(())
}
