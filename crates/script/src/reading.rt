// Reads a line of the sheet: its fields from left to right, so that the first fault decides.
ghost use Rattle.std.specs.Prelude.{◌≡◌};
ghost use Rattle.std.specs.Option.{option_map};
ghost use Rattle.script.specs.declared.entries.Fault.TheVariants.{Memory};
ghost use Rattle.script.specs.Entries.{said};
ghost use Rattle.script.specs.Fields.{seen};
ghost use Rattle.script.specs.Outcome.{AnswersAs};
ghost use Rattle.script.specs.Reading.{finished, one_byte, read_day, read_direction, read_setup, read_show, read_code, read_kind, read_entry, read_line, without_return};

use crate::entries::{Entry, Fault, Kind, Setup, Showing};
use crate::fields::{after_word, hex_word, number_word, skip_spaces, three_pairs, two_digits};
use crate::hex::from_hex;
use std::alloc::Global;

// Nothing but spaces is left.
fn nothing_after(text: &[u8]) -> Result<(), Fault>
    ensures { result ≡ finished tt text.now }
{
    skip_spaces(text)
        .is_empty()
        .then_some(())
        .ok_or(Fault::After)
}

fn read_byte(text: &[u8]) -> Option<(u8, &[u8])>
    ensures { seen result ≡ one_byte text.now }
{
    let ([byte], text) = hex_word::<1>(text)?;
    Some((byte, text))
}

fn read_day(text: &[u8]) -> Option<((u16, u8, u8), &[u8])>
    ensures { seen result ≡ read_day text.now }
{
    let (century, text) = two_digits(text)?;
    let ((year, month, date), text) = three_pairs(text, b'-')?;
    Some((
        (100 * u16::from(century) + u16::from(year), month, date),
        text,
    ))
}

fn read_direction(text: &[u8]) -> Option<(u8, &[u8])>
    ensures { seen result ≡ read_direction text.now }
{
    if let Some(rest) = after_word(text, "in") {
        return Some((1, rest));
    }
    if let Some(rest) = after_word(text, "out") {
        return Some((2, rest));
    }
    read_byte(text)
}

fn read_setup(text: &[u8]) -> Result<Setup, Fault>
    ensures { result ≡ read_setup text.now }
{
    let (tid, text) = hex_word::<2>(text).ok_or(Fault::Tid)?;
    let (mac, text) = hex_word::<6>(text).ok_or(Fault::Mac)?;
    let (last_user, text) = number_word(text, u32::MAX).ok_or(Fault::LastUser)?;
    nothing_after(text)?;
    Ok(Setup {
        tid: u16::from_be_bytes(tid),
        mac,
        last_user,
    })
}

fn read_code(text: &[u8]) -> Result<u8, Fault>
    ensures { result ≡ read_code text.now }
{
    let (code, text) = read_byte(text).ok_or(Fault::Code)?;
    nothing_after(text)?;
    Ok(code)
}

// The first word, and the text after it.
fn read_kind(text: &[u8]) -> Option<(Kind, &[u8])>
    ensures { seen result ≡ read_kind text.now }
{
    for kind in Kind::ALL {
        if let Some(rest) = after_word(text, kind.word()) {
            return Some((kind, rest));
        }
    }
    None
}

fn read_show(text: &[u8]) -> Result<Showing, Fault>
    ensures { result ≡ read_show text.now }
{
    let (card, text) = hex_word::<8>(text).ok_or(Fault::Card)?;
    let (door, text) = number_word(text, 255).ok_or(Fault::Door)?;
    let ((year, month, date), text) = read_day(skip_spaces(text)).ok_or(Fault::Day)?;
    let ((hour, minute, second), text) = three_pairs(skip_spaces(text), b':').ok_or(Fault::Time)?;
    let (direction, text) = read_direction(skip_spaces(text)).ok_or(Fault::Direction)?;
    nothing_after(text)?;
    Ok(Showing {
        card,
        door: door as u8,
        year,
        month,
        date,
        hour,
        minute,
        second,
        direction,
    })
}

// What follows the first word.
fn read_entry(heap: Global, kind: Kind, text: &[u8]) -> Result<Entry, Fault>
    ensures { AnswersAs said Memory (read_entry kind text.now) result }
{
    Ok(match kind {
        Kind::Setup => Entry::Setup(read_setup(text)?),
        Kind::Send => Entry::Send(from_hex(heap, text)?),
        Kind::Withdraw => Entry::Withdraw(from_hex(heap, text)?),
        Kind::Reply => Entry::Reply(from_hex(heap, text)?),
        Kind::Show => Entry::Show(read_show(text)?),
        Kind::Event => Entry::Event(read_code(text)?),
        Kind::Refused => Entry::Refused(read_code(text)?),
    })
}

// The entry of a line, or `None` where the line is empty or a remark.
pub fn read_line(heap: Global, line: &[u8]) -> Result<Option<Entry>, Fault>
    ensures { AnswersAs (option_map said) Memory (read_line line.now) result }
{
    let text = skip_spaces(line);
    if matches!(text, [] | [b'#', ..]) {
        return Ok(None);
    }
    let (kind, rest) = read_kind(text).ok_or(Fault::Word)?;
    read_entry(heap, kind, rest).map(Some)
}

// The text of a line that may end in a carriage return.
pub fn without_return(line: &[u8]) -> &[u8]
    ensures { result.now ≡ without_return line.now }
{
    match line {
        [text @ .., b'\r'] => text,
        _ => line,
    }
}
