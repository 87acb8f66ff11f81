// What is told of an order that is ready.
ghost use Rattle.std.specs.Prelude.{◌≡◌, length, IfSome, slice_index};
ghost use Rattle.line.specs.Frame.{ends_right, sums_right};

use line::frame::{checksum_right, ends_right};
use std::fmt;

#[derive(Clone, Copy)]
pub struct Note {
    command: u8,
    length: usize,
    ends_right: bool,
    sums_right: bool,
}

impl Note {
    // A frame shorter than a header has no command, and no line holds one.
    pub(crate) fn of(frame: &[u8]) -> Option<Note>
        ensures { IfSome result (λ n. (n.command ≡ slice_index frame.now 8) × (n.length ≡ length frame.now) × (n.ends_right ≡ ends_right frame.now) × (n.sums_right ≡ sums_right frame.now)) }
    {
        Some(Note {
            command: *frame.get(8)?,
            length: frame.len(),
            ends_right: ends_right(frame),
            sums_right: checksum_right(frame),
        })
    }

    // Are both the last byte and the checksum right?
    pub(crate) fn is_right(&self) -> bool {
        self.ends_right && self.sums_right
    }
}

fn word(right: bool) -> &'static str {
    if right { "right" } else { "wrong" }
}

impl fmt::Display for Note {
    fn fmt<W: fmt::Write>(&self, f: &mut fmt::Formatter<W>) -> fmt::Result {
        let Note {
            command,
            length,
            ends_right,
            sums_right,
        } = *self;
        let last = word(ends_right);
        let sum = word(sums_right);
        write!(
            f,
            "order {command:02X}, {length} bytes, last byte {last}, checksum {sum}"
        )
    }
}
