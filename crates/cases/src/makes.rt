// The same examples for both makes.
use std::alloc::Global;
use std::process::Abort;
use std::test::Fail;
use tables::edit::Edit;
use tables::entry::Entry;
use tables::packed::Packed;
use tables::slots::Slots;
use tables::table::Table;
use tables::uses::{apply, walked};

fn put<T: Table<Body = u8>>(table: &mut T, number: u32, body: u8) -> bool {
    table.put(Entry { number, body }).is_ok()
}

fn body<T: Table<Body = u8>>(table: &T, number: u32) -> Option<u8> {
    match table.get(number) {
        Some(record) => Some(record.body),
        None => None,
    }
}

fn no_numbers<T: Table<Body = u8> + Drop>(rt: &impl Abort, heap: Global) -> Result<(), Fail> {
    let mut table: T = T::new(heap, 1, 0)?;
    assert!(rt; !put(&mut table, 0, 7));
    assert!(rt; !put(&mut table, 1, 7));
    assert_eq!(rt; table.count(), 0);
    assert_eq!(rt; table.next(None), None);
    assert_eq!(rt; body(&table, 1), None);
    Ok(())
}

fn first_and_last<T: Table<Body = u8> + Drop>(rt: &impl Abort, heap: Global) -> Result<(), Fail> {
    let mut table: T = T::new(heap, 0, 9)?;
    assert!(rt; put(&mut table, 9, 90));
    assert!(rt; put(&mut table, 0, 1));
    assert!(rt; !put(&mut table, 10, 2));
    assert_eq!(rt; table.next(None), Some(0));
    assert_eq!(rt; table.next(Some(0)), Some(9));
    assert_eq!(rt; table.next(Some(9)), None);
    assert_eq!(rt; body(&table, 9), Some(90));
    assert_eq!(rt; walked(&table), 2);
    Ok(())
}

fn full<T: Table<Body = u8> + Drop>(rt: &impl Abort, heap: Global) -> Result<(), Fail> {
    let mut table: T = T::new(heap, 3, 5)?;
    assert!(rt; put(&mut table, 5, 50));
    assert!(rt; put(&mut table, 3, 30));
    assert!(rt; put(&mut table, 4, 40));
    assert!(rt; put(&mut table, 4, 41));
    assert_eq!(rt; table.count(), 3);
    assert_eq!(rt; body(&table, 4), Some(41));
    table.remove(4);
    assert_eq!(rt; body(&table, 4), None);
    assert_eq!(rt; table.next(Some(3)), Some(5));
    table.clear();
    assert_eq!(rt; table.count(), 0);
    Ok(())
}

fn changes<T: Table<Body = u8> + Drop>(rt: &impl Abort, heap: Global) -> Result<(), Fail> {
    let mut table: T = T::new(heap, 1, 100)?;
    let edits = [
        Edit::Put(Entry { number: 1, body: 1 }),
        Edit::Clear,
        Edit::Put(Entry {
            number: 100,
            body: 2,
        }),
        Edit::Put(Entry {
            number: 50,
            body: 3,
        }),
        Edit::Remove(100),
    ];
    apply(&mut table, &edits);
    assert_eq!(rt; table.count(), 1);
    assert_eq!(rt; body(&table, 50), Some(3));
    Ok(())
}

#[test]
fn slots(rt: HostRuntime) -> Result<(), Fail> {
    no_numbers::<Slots<u8>>(&rt, rt.alloc())?;
    first_and_last::<Slots<u8>>(&rt, rt.alloc())?;
    full::<Slots<u8>>(&rt, rt.alloc())?;
    changes::<Slots<u8>>(&rt, rt.alloc())
}

#[test]
fn packed(rt: HostRuntime) -> Result<(), Fail> {
    no_numbers::<Packed<u8>>(&rt, rt.alloc())?;
    first_and_last::<Packed<u8>>(&rt, rt.alloc())?;
    full::<Packed<u8>>(&rt, rt.alloc())?;
    changes::<Packed<u8>>(&rt, rt.alloc())
}
