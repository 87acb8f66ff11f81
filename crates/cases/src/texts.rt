// Lines of a sheet and hexadecimal, read and printed.
use script::{Fault, HexFault, from_hex, line_of, read_line, to_hex};
use std::test::Fail;

// The line that is printed of what `line` says.
fn again(rt: &HostRuntime, line: &[u8]) -> Result<String, Fail> {
    match read_line(rt.alloc(), line)? {
        Some(entry) => Ok(line_of(rt.alloc(), &entry)?),
        None => Err(Fail::new("no entry")),
    }
}

fn fault(rt: &HostRuntime, line: &[u8]) -> Option<Fault> {
    match read_line(rt.alloc(), line) {
        Ok(_) => None,
        Err(e) => Some(e),
    }
}

#[test]
fn hexadecimal(rt: HostRuntime) -> Result<(), Fail> {
    let bytes = from_hex(rt.alloc(), b" 0a ff  1B")?;
    assert_eq!(rt; to_hex(rt.alloc(), &bytes)?.as_str(), "0AFF1B");
    assert_eq!(rt;
        from_hex(rt.alloc(), b"0a f").err(),
        Some(HexFault::HalfByte)
    );
    assert_eq!(rt;
        from_hex(rt.alloc(), b"0a x f").err(),
        Some(HexFault::NotHex)
    );
    Ok(())
}

#[test]
fn lines(rt: HostRuntime) -> Result<(), Fail> {
    assert_eq!(rt;
        again(&rt, b" setup 12 aB 010203040506  007 ")?.as_str(),
        "setup 12AB 010203040506 7"
    );
    assert_eq!(rt; again(&rt, b"send")?.as_str(), "send");
    let shown = "show 0102030405060708 3 2024-02-29 07:05:00 in";
    assert_eq!(rt;
        again(&rt, b"show 01020304 05060708 003 2024-02-29 07:05:00 in")?.as_str(),
        shown
    );
    assert_eq!(rt;
        again(&rt, b"show 0102030405060708 3 2024-02-29 07:05:00 01")?.as_str(),
        shown
    );
    assert!(rt; matches!(read_line(rt.alloc(), b"  # a remark")?, None));
    Ok(())
}

#[test]
fn faults(rt: HostRuntime) -> Result<(), Fail> {
    assert_eq!(rt; fault(&rt, b"setup 12A 010203040506 7"), Some(Fault::Tid));
    assert_eq!(rt;
        fault(&rt, b"setup 12AB 010203040506 4294967296"),
        Some(Fault::LastUser)
    );
    assert_eq!(rt; fault(&rt, b"event 01 02"), Some(Fault::After));
    assert_eq!(rt; fault(&rt, b"sends 01"), Some(Fault::Word));
    assert_eq!(rt;
        Fault::Day.to_string(rt.alloc())?.as_str(),
        "the day is not of the form YYYY-MM-DD"
    );
    Ok(())
}
