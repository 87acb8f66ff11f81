// The sheet on which an assembly shop writes what was sent to a door controller, one entry a line:
//
//     setup TID MAC MU      TID: 2 bytes, MAC: 6 bytes, MU: the last user
//     send BYTES            any number of bytes, also none; so too `withdraw` and `reply`
//     show CARD DOOR YYYY-MM-DD hh:mm:ss DIRECTION      CARD: 8 bytes, DIRECTION: in, out or 1 byte
//     event XX              1 byte; so too `refused`
//
// Bytes are in hexadecimal, with spaces between them or none, MU and DOOR in decimal. Words stand one or more spaces
// apart. An empty line and one that begins with `#` hold no entry.
#![tactic(auto)]

mod entries;
mod fields;
mod hex;
mod printing;
mod reading;

pub use entries::{Entry, Fault, Setup, Showing};
pub use hex::{HexFault, from_hex, to_hex};
pub use printing::line_of;
pub use reading::{read_line, without_return};
