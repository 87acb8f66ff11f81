// Reading the fields of a body, each in its range.
ghost use Rattle.std.specs.Prelude.{◌≡◌, ◌^◌, ◌<◌, true, false, length, MatchResult, ◌≢◌};
ghost use Rattle.records.specs.Codec.{InRange};
ghost use Rattle.records.specs.Users.{four, card_bytes};
ghost use Rattle.orders.specs.declared.refusal.Refusal.TheVariants.{Range};
ghost use Rattle.orders.specs.declared.size.BodySize.TheVariants.{Counted};
ghost use Rattle.orders.specs.Bodies.{long_right};
ghost use Rattle.orders.specs.Fields.{counted, taken_right};
ghost use Rattle.orders.specs.Meanings.{a_user};
ghost use Rattle.orders.specs.Readings.{CountedRead, UserRead};

use crate::order::{NewUser, Place};
use crate::refusal::Refusal;
use records::limits::NUMBER_SIZE;
use records::{Record, User, card};

const FEWEST_RECORDS: u8 = 1;

// Records begin behind their count.
const COUNT_SIZE: usize = 1;

// The byte OVERWRITE where a user that stands may be replaced; 0 where not. It stands behind the number.
const OVERWRITE: u8 = 1;

const REST_AT: usize = NUMBER_SIZE + 1;

// The place of the records of a counted body, of which there is one at least and each in range.
pub(crate) fn counted_records<R: Record + Drop>(
    last_user: u32,
    body: &[u8],
) -> Result<Place, Refusal>
    requires { long_right (Counted R.Record.long) body.now ≡ true }
    ensures { InRange Range (CountedRead R.Record.encoded R.Record.long (R.Record.numbers last_user) body.now) (counted (R.Record.ranges last_user) R.Record.long body.now) result }
{
    let [count, records @ ..] = body else {
        return Err(Refusal::Range);
    };
    if *count < FEWEST_RECORDS {
        return Err(Refusal::Range);
    }
    for bytes in records.chunks_exact(R::size()) {
        R::from_bytes(last_user, bytes)?;
    }
    Ok(Place {
        start: COUNT_SIZE,
        count: usize::from(*count),
    })
}

// A user number, which may be any.
pub(crate) fn user_number(body: &[u8]) -> Result<u32, Refusal>
    ensures { MatchResult result (λ n. four n ≡ body.now) (λ e. length body.now ≢ 4) }
{
    let [a, b, c, d] = body else {
        return Err(Refusal::Length);
    };
    Ok(u32::from_be_bytes([*a, *b, *c, *d]))
}

// A card number, which may be any.
pub(crate) fn card_number(body: &[u8]) -> Result<u64, Refusal>
    ensures { MatchResult result (λ n. (card_bytes n ≡ body.now) × (n < 2 ^ 64)) (λ e. length body.now ≢ 8) }
{
    card::from_bytes(body).ok_or(Refusal::Length)
}

// The user of a body that has the byte OVERWRITE behind the number.
pub(crate) fn new_user(last_user: u32, body: &[u8]) -> Result<NewUser, Refusal>
    ensures { MatchResult result (UserRead last_user body.now) (λ e. length body.now ≡ 85 → (e ≡ Range) × (taken_right last_user a_user body.now ≡ false)) }
{
    let Some((number, [overwrite, rest @ ..])) = body.split_at_checked(NUMBER_SIZE) else {
        return Err(Refusal::Length);
    };
    if OVERWRITE < *overwrite {
        return Err(Refusal::Range);
    }
    let number = user_number(number)?;
    User::with_number(last_user, number, rest)?;
    Ok(NewUser {
        number,
        overwrite: *overwrite == OVERWRITE,
        rest: REST_AT,
    })
}
