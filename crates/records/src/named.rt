// What a number names where a record names others.

// A time set, a zone or a group: two numbers are built in, and each other one is a record's.
#[derive(Clone, Copy, PartialEq, Eq, Debug)]
pub enum Named {
    // At no minute.
    Never,
    // At every minute.
    Always,
    // As the record of that number says.
    Record(u8),
}

impl From<u8> for Named {
    ghost use Rattle.std.specs.Prelude.{◌≡◌};
    ghost use Rattle.records.specs.Named.{named_by};

    ghost from_gives = { λ number named. named ≡ named_by number };

    fn from(number: u8) -> Named {
        match number {
            0 => Named::Never,
            1 => Named::Always,
            _ => Named::Record(number),
        }
    }
}
