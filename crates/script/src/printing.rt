// Prints an entry as a line in its normal form.
ghost use Rattle.std.specs.Prelude.{◌≡◌, IfOk, Some, string_bytes};
ghost use Rattle.script.specs.Back.{ReadsBack, ReadsAgain};
ghost use Rattle.script.specs.Entries.{said};
ghost use Rattle.script.specs.Printing.{print_direction, setup_fields, show_fields, print_said};

use crate::entries::{Entry, Setup, Showing};
use crate::hex::Hex;
use std::alloc::{AllocError, Global};
use std::fmt;

// A direction by its word, or by its byte where it has none.
#[derive(Clone, Copy)]
struct Direction(u8);

impl fmt::Display for Direction {
    ghost output = { λ d. Some (print_direction d.0) };

    fn fmt<W: fmt::Write>(&self, f: &mut fmt::Formatter<W>) -> fmt::Result {
        match self.0 {
            1 => f.write_str("in"),
            2 => f.write_str("out"),
            other => write!(f, "{}", Hex(&[other])),
        }
    }
}

impl fmt::Display for Setup {
    ghost output = { λ s. Some (setup_fields s) };

    fn fmt<W: fmt::Write>(&self, f: &mut fmt::Formatter<W>) -> fmt::Result {
        write!(
            f,
            "{} {} {}",
            Hex(&self.tid.to_be_bytes()),
            Hex(&self.mac),
            self.last_user
        )
    }
}

impl fmt::Display for Showing {
    ghost output = { λ s. Some (show_fields s) };

    fn fmt<W: fmt::Write>(&self, f: &mut fmt::Formatter<W>) -> fmt::Result {
        let Showing {
            card,
            door,
            year,
            month,
            date,
            hour,
            minute,
            second,
            direction,
        } = *self;
        write!(
            f,
            "{} {door} {year:04}-{month:02}-{date:02} {hour:02}:{minute:02}:{second:02} {}",
            Hex(&card),
            Direction(direction)
        )
    }
}

impl fmt::Display for Entry {
    ghost output = { λ e. Some (print_said (said e)) };

    fn fmt<W: fmt::Write>(&self, f: &mut fmt::Formatter<W>) -> fmt::Result {
        f.write_str(self.kind().word())?;
        match self {
            Entry::Setup(setup) => write!(f, " {setup}"),
            Entry::Send(bytes) | Entry::Withdraw(bytes) | Entry::Reply(bytes) => {
                if bytes.is_empty() {
                    Ok(())
                } else {
                    write!(f, " {}", Hex(bytes))
                }
            }
            Entry::Show(showing) => write!(f, " {showing}"),
            Entry::Event(code) | Entry::Refused(code) => write!(f, " {}", Hex(&[*code])),
        }
    }
}

// The line of an entry in its normal form, without a newline.
#[tactic(auto, using(crate::proofs::BackLaws::reads_back, crate::proofs::FitLaws::reads_again))]
pub fn line_of(heap: Global, entry: &Entry) -> Result<String, AllocError>
    ensures value { IfOk result (λ t. string_bytes t ≡ print_said (said entry.now)) }
    ensures back { ReadsBack }
    ensures again { ReadsAgain }
{
    entry.to_string(heap)
}
