// The edges of dates and times, on both sides, and weekdays that everybody can look up.
use calendar::{Date, Moment, MonthDay, TimeOfDay, Weekday};
use std::test::Fail;

#[test]
fn real_dates_and_no_others(rt: HostRuntime) {
    for (year, month, day, real) in [
        (1999u16, 12u8, 31u8, false),
        (2000, 1, 1, true),
        (2000, 2, 29, true),
        (2023, 2, 28, true),
        (2023, 2, 29, false),
        (2024, 2, 29, true),
        (2024, 2, 30, false),
        (2024, 4, 30, true),
        (2024, 4, 31, false),
        (2024, 0, 1, false),
        (2024, 13, 1, false),
        (2024, 12, 0, false),
        (2024, 12, 32, false),
        (2099, 12, 31, true),
        (2100, 1, 1, false),
    ] {
        assert_eq!(rt; Date::new(year, month, day).is_some(), real);
    }
    assert!(rt; MonthDay::new(2, 29).is_some());
    assert!(rt; MonthDay::new(2, 30).is_none());
    assert!(rt; MonthDay::new(12, 31).is_some());
    assert!(rt; MonthDay::new(13, 1).is_none());
}

#[test]
fn real_times_and_no_others(rt: HostRuntime) {
    assert!(rt; TimeOfDay::new(23, 59).is_some());
    assert!(rt; TimeOfDay::new(24, 0).is_none());
    assert!(rt; TimeOfDay::new(0, 60).is_none());
    assert!(rt; Moment::new(2024, 2, 29, 23, 59, 59).is_some());
    assert!(rt; Moment::new(2024, 2, 29, 23, 59, 60).is_none());
    assert!(rt; Moment::new(2023, 2, 29, 12, 0, 0).is_none());
}

#[test]
fn weekdays(rt: HostRuntime) -> Result<(), Fail> {
    for (year, month, day, weekday) in [
        (2000u16, 1u8, 1u8, Weekday::Saturday),
        (2000, 3, 1, Weekday::Wednesday),
        (2024, 2, 29, Weekday::Thursday),
        (2026, 11, 17, Weekday::Tuesday),
        (2099, 12, 31, Weekday::Thursday),
    ] {
        let Some(date) = Date::new(year, month, day) else {
            return Err(Fail::new("no date"));
        };
        assert_eq!(rt; date.weekday(), weekday);
    }
    let Some(last) = Date::new(2099, 12, 31) else {
        return Err(Fail::new("no date"));
    };
    assert_eq!(rt; last.day_number(), 36524);
    assert!(rt; last.next().is_none());
    Ok(())
}

#[test]
fn earlier_and_later(rt: HostRuntime) {
    assert!(rt; Date::new(2023, 12, 31) < Date::new(2024, 1, 1));
    assert!(rt; Date::new(2024, 2, 29) < Date::new(2024, 3, 1));
    assert!(rt; TimeOfDay::new(8, 59) < TimeOfDay::new(9, 0));
    assert!(rt; Moment::new(2024, 2, 29, 23, 59, 59) < Moment::new(2024, 3, 1, 0, 0, 0));
    assert!(rt; MonthDay::new(2, 29) < MonthDay::new(3, 1));
    assert_eq!(rt;
        Date::new(2023, 3, 1).map(MonthDay::from),
        MonthDay::new(3, 1)
    );
    assert_eq!(rt; usize::from(Weekday::Monday), 0);
    assert_eq!(rt; usize::from(Weekday::Sunday), 6);
}
