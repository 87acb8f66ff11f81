// Where orders become ready in a stream of bytes, cut in several ways.
ghost use Rattle.std.specs.Prelude.{◌≤◌};

use line::{Fed, FrameBuffer, Line, frame};
use std::alloc::{AllocError, Global};
use std::process::Abort;
use std::test::Fail;

const COUNT_USERS: [u8; 11] = [7, 3, 0, 0, 0, 11, 0, 1, 4, 0x1A, 4];

const FOR_ANOTHER: [u8; 11] = [7, 3, 0, 0, 0, 11, 0, 2, 4, 0x1B, 4];

// Feeds pieces of at most `step` bytes, withdraws each order, and tells after how many bytes each came.
fn ready_at(heap: Global, bytes: &[u8], step: usize) -> Result<Vec<usize>, AllocError> {
    let mut line = Line::new(0x0001, FrameBuffer::new(heap)?);
    let mut ends = Vec::new(heap);
    let mut at: usize = 0;
    // As many turns as bytes, so that a step of 0 ends too.
    for _ in 0..bytes.len() {
        let end = at.saturating_add(step).min(bytes.len());
        match line.feed(&bytes[at..end]) {
            Fed::Waiting(listening, taken) => {
                line = listening;
                at += taken;
            }
            Fed::Ready(holding, pending, taken) => {
                line = holding.withdraw(pending);
                at += taken;
                ends.push(at)?;
            }
        }
    }
    Ok(ends)
}

// The same places whatever the pieces are.
fn check_ready(
    rt: &impl Abort,
    heap: Global,
    bytes: &[u8],
    ends: &[usize],
    what: &str,
) -> Result<(), Fail> {
    for step in [1, 2, 7, 11, 5000] {
        let found = ready_at(heap, bytes, step)?;
        assert_eq!(rt; found.as_slice(), ends, "{what}");
    }
    Ok(())
}

#[test]
fn a_whole_frame(rt: HostRuntime) -> Result<(), Fail> {
    let line = Line::new(0x0001, FrameBuffer::new(rt.alloc())?);
    match line.feed(&COUNT_USERS) {
        Fed::Waiting(_, _) => Err(Fail::new("no order is ready")),
        Fed::Ready(holding, pending, taken) => {
            let same = holding.frame() == COUNT_USERS.as_slice();
            let right = frame::ends_right(holding.frame())
                && frame::checksum_right(holding.frame());
            let _line = holding.withdraw(pending);
            assert_eq!(rt; taken, 11);
            assert!(rt; same && right);
            Ok(())
        }
    }
}

#[test]
fn streams(rt: HostRuntime) -> Result<(), Fail> {
    let heap = rt.alloc();
    let mut bytes = Vec::new(heap);
    bytes.extend_from_slice(&COUNT_USERS)?;
    check_ready(&rt, heap, &bytes, &[11], "a frame")?;
    bytes.extend_from_slice(&COUNT_USERS)?;
    check_ready(&rt, heap, &bytes, &[11, 22], "twice in one piece")?;
    bytes.extend_from_slice(&FOR_ANOTHER)?;
    bytes.extend_from_slice(&COUNT_USERS)?;
    check_ready(
        &rt,
        heap,
        &bytes,
        &[11, 22, 44],
        "a frame for another TID between",
    )?;
    bytes.clear();
    bytes.extend_from_slice(&[0xFF, 3, 4, 7, 5, 7, 7])?;
    bytes.extend_from_slice(&COUNT_USERS)?;
    check_ready(&rt, heap, &bytes, &[18], "after noise and two 07")?;
    bytes.clear();
    bytes.extend_from_slice(&[7, 3])?;
    bytes.extend_from_slice(&COUNT_USERS)?;
    bytes.extend_from_slice(&COUNT_USERS)?;
    check_ready(
        &rt,
        heap,
        &bytes,
        &[24],
        "07 03 07 03 is a LENGTH out of range",
    )
}

#[test]
fn limits_of_length(rt: HostRuntime) -> Result<(), Fail> {
    let heap = rt.alloc();
    for (length, ready) in [(10usize, 17usize), (4097, 17), (11, 11), (4096, 4096)] {
        let mut bytes = Vec::new(heap);
        bytes.extend_from_slice(&[7, 3, 0, 0, (length / 256 % 256) as u8, (length % 256) as u8])?;
        if length == 10 || length == 4097 {
            bytes.extend_from_slice(&COUNT_USERS)?;
        } else {
            bytes.extend_from_slice(&[0, 1])?;
            bytes.resize(length, 7)?;
        }
        check_ready(&rt, heap, &bytes, &[ready], "a LENGTH at a limit")?;
    }
    Ok(())
}
