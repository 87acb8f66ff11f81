// The questions to a frame alone. The first answered no decides, and the later ones are not asked.
ghost use Rattle.std.specs.Prelude.{◌≡◌, true, IfOk};
ghost use Rattle.orders.specs.Bodies.{size_of, long_right};
ghost use Rattle.orders.specs.Questions.{told, opened, asked};

use crate::command::Command;
use crate::protocol::reading::order_of;
use crate::refusal::Refusal;
use line::frame::{SHORTEST, checksum_right, ends_right};

// Two bytes, LENGTH and TID stand before COMMAND.
const COMMAND_AT: usize = 8;

const BODY_AT: usize = COMMAND_AT + 1;

// The checksum and 04 stand behind the body.
const CLOSING_SIZE: usize = 2;

// The command and the body of a frame whose body has the length of its command. Bytes that are too few for a frame have no right length.
pub fn open(frame: &[u8]) -> Result<(Command, &[u8]), Refusal>
    ensures value { told result ≡ opened frame.now }
    ensures fits { IfOk result (λ p. long_right (size_of p.0) p.1.now ≡ true) }
{
    if frame.len() < SHORTEST || !ends_right(frame) {
        return Err(Refusal::Length);
    }
    if !checksum_right(frame) {
        return Err(Refusal::Checksum);
    }
    let command = Command::try_from(frame[COMMAND_AT])?;
    let body = &frame[BODY_AT..frame.len() - CLOSING_SIZE];
    if !command.body_size().fits(body) {
        return Err(Refusal::Length);
    }
    Ok((command, body))
}

// The command and the body of a frame that passes all questions to itself alone.
pub fn ask(frame: &[u8], last_user: u32) -> Result<(Command, &[u8]), Refusal>
    ensures { told result ≡ asked last_user frame.now }
{
    let (command, body) = open(frame)?;
    order_of(last_user, command, body)?;
    Ok((command, body))
}
