// What stands in front of a reply's data, besides its length.
ghost use Rattle.std.specs.Prelude.{◌≡◌, length};

#[derive(Clone, Copy)]
pub struct Heading {
    pub(crate) tid: u16,
    // 0 or the number of any of the refusals, which are four enums: a byte is what they have in common.
    pub(crate) result: u8,
    pub(crate) command: u8,
    pub(crate) mac: [u8; 6],
    ghost six: { length mac ≡ 6 },
}

impl Heading {
    // The command is a byte, since a reply repeats whatever byte the frame had, also one that no command has.
    pub fn new(tid: u16, outcome: u8, command: u8, mac: [u8; 6]) -> Heading
        ensures tid { result.tid ≡ tid }
        ensures result { result.result ≡ outcome }
        ensures command { result.command ≡ command }
        ensures mac { result.mac ≡ mac }
    {
        Heading {
            tid,
            result: outcome,
            command,
            mac,
        }
    }
}
