// A log of more cards than it keeps.
use calendar::Moment;
use doors::{Direction, Door, Event};
use journal::{Entry, Journal};
use std::test::Fail;

fn shown(card: u64) -> Result<Entry, Fail> {
    let Some(moment) = Moment::new(2024, 2, 29, 17, 30, 59) else {
        return Err(Fail::new("no moment"));
    };
    let Ok(door) = Door::try_from(8) else {
        return Err(Fail::new("no door"));
    };
    Ok(Entry::new(
        moment,
        Direction::Out,
        Event::NotNow,
        door,
        0x01020304,
        card,
    ))
}

#[test]
fn a_thousand_and_one(rt: HostRuntime) -> Result<(), Fail> {
    let heap = rt.alloc();
    let mut log = Journal::new(heap)?;
    for card in 1..1002u64 {
        log.enter(shown(card)?);
    }
    assert_eq!(rt; log.count(), 1000);
    let mut out: Vec<u8> = vec![in heap; 0xEE; 32001]?;
    assert_eq!(rt; log.write(&mut out[0..31999]), None);
    assert_eq!(rt; out[0], 0xEE);
    assert_eq!(rt; log.write(&mut out), Some(32000));
    assert_eq!(rt;
        &out[0..32],
        [
            59, 30, 17, 29, 2, 24, 2, 1, 0x16, 8, 1, 2, 3, 4, 0, 0, 0, 1, 0, 0, 0, 0, 0, 0, 0, 2,
            0, 0, 0, 0, 0, 0,
        ]
        .as_slice()
    );
    assert_eq!(rt;
        &out[31968..32001],
        [
            59, 30, 17, 29, 2, 24, 2, 1, 0x16, 8, 1, 2, 3, 4, 0, 0, 3, 0xE8, 0, 0, 0, 0, 0, 0, 3,
            0xE9, 0, 0, 0, 0, 0, 0, 0xEE,
        ]
        .as_slice()
    );
    log.clear();
    assert_eq!(rt; log.count(), 0);
    log.enter(shown(7)?);
    assert_eq!(rt; log.write(&mut out), Some(32));
    Ok(())
}
