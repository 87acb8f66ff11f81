// A window, to and from its bytes.
ghost use Rattle.std.specs.Prelude.{◌≡◌, true};
ghost use Rattle.records.specs.declared.record.Misfit.TheVariants.{Range};
ghost use Rattle.records.specs.Codec.{InRange};
ghost use Rattle.records.specs.Windows.{minute_bytes, minute_ranges, minute_said, validity_ranges, window_bytes, window_ranges};
ghost use Rattle.calendar.specs.Dates.{minute_number};
ghost use Rattle.std.specs.List.{between};

use crate::limits::WINDOW_SIZE;
use crate::record::Misfit;
use crate::window::{Kept, Validity, Window};
use calendar::{Date, FIRST_YEAR, Minute, TimeOfDay};

// The minute that five bytes name. No TryFrom, since both types are of other crates.
fn minute_of(bytes: &[u8; 5]) -> Result<Minute, Misfit>
    ensures { InRange Range (λ m. (minute_bytes m ≡ bytes.now) × (minute_number m ≡ minute_said bytes.now) × (minute_ranges bytes.now ≡ true)) (minute_ranges bytes.now) result }
{
    let [year, month, day, hour, minute] = *bytes;
    let date = Date::new(FIRST_YEAR + u16::from(year), month, day).ok_or(Misfit::Range)?;
    let time = TimeOfDay::new(hour, minute).ok_or(Misfit::Range)?;
    Ok(Minute::new(date, time))
}

// The five bytes of a minute. No From, as above.
fn minute_array(minute: &Minute) -> [u8; 5]
    ensures { result ≡ minute_bytes minute.now }
{
    let date = minute.date();
    let time = minute.time();
    let year = (date.year() - FIRST_YEAR) as u8;
    [year, date.month(), date.day(), time.hour(), time.minute()]
}

// The validity that stands behind the state. No TryFrom, since the state, the first byte, is not asked here.
fn validity_of(bytes: &[u8; 11]) -> Result<Validity, Misfit>
    ensures { InRange Range (λ v. (minute_bytes v.start ≡ between 1 6 bytes.now) × (minute_bytes v.end ≡ between 6 11 bytes.now) × (validity_ranges bytes.now ≡ true)) (validity_ranges bytes.now) result }
{
    let start = minute_of(bytes[1..6].as_array().unwrap())?;
    let end = minute_of(bytes[6..11].as_array().unwrap())?;
    if end < start {
        return Err(Misfit::Range);
    }
    Ok(Validity { start, end })
}

impl TryFrom<&[u8; WINDOW_SIZE]> for Window {
    type Error = Misfit;

    ghost try_from_gives = { λ bytes result. InRange Range (λ w. (window_bytes w ≡ bytes.now) × (window_ranges bytes.now ≡ true)) (window_ranges bytes.now) result };

    fn try_from(bytes: &[u8; WINDOW_SIZE]) -> Result<Window, Misfit> {
        match bytes[0] {
            0 => Ok(Window::Unused(Kept {
                bytes: *bytes[1..11].as_array().unwrap(),
            })),
            1 => Ok(Window::Used(validity_of(bytes)?)),
            _ => Err(Misfit::Range),
        }
    }
}

impl From<&Window> for [u8; WINDOW_SIZE] {
    ghost from_gives = { λ window bytes. bytes ≡ window_bytes window.now };

    fn from(window: &Window) -> [u8; WINDOW_SIZE] {
        let mut bytes = [0; WINDOW_SIZE];
        match window {
            Window::Unused(kept) => bytes[1..11].copy_from_slice(&kept.bytes),
            Window::Used(validity) => {
                bytes[0] = 1;
                bytes[1..6].copy_from_slice(&minute_array(&validity.start));
                bytes[6..11].copy_from_slice(&minute_array(&validity.end));
            }
        }
        bytes
    }
}
