// A user, to and from its bytes.
ghost use Rattle.std.specs.Prelude.{◌&&◌, ◌≡◌, ◌≤◌, true, ◌++◌, IfOk, nat_le, slice_index};
ghost use Rattle.records.specs.declared.record.Misfit.TheVariants.{Range};
ghost use Rattle.records.specs.Codec.{InRange, Reads};
ghost use Rattle.records.specs.Decoding.{user_of};
ghost use Rattle.records.specs.Users.{four, status_byte, four_bytes_hold, user_number, user_may_have, rest_bytes, user_bytes, rest_ranges, user_ranges};
ghost use Rattle.records.specs.UserBytes;
ghost use Rattle.records.specs.UserBytes.{ranges_right};
ghost use Rattle.std.proofs.lemmas.Bool.{and_parts};
ghost use Rattle.records.specs.DecodingLemmas.{user_yes};
ghost use Rattle.std.proofs.Common.{arith};

use crate::card;
use crate::codec::place;
use crate::limits::{FIRST_USER, LAST_TYPE, NUMBER_SIZE, REST_SIZE, USER_SIZE, WINDOW_SIZE};
use crate::record::{Misfit, Record};
use crate::user::{Status, User};
use crate::window::Window;
use tables::entry::Entry;

impl TryFrom<u8> for Status {
    type Error = Misfit;

    ghost try_from_gives = { λ byte result. InRange Range (λ s. (status_byte s ≡ byte) × (nat_le byte 1 ≡ true)) (nat_le byte 1) result };

    fn try_from(byte: u8) -> Result<Status, Misfit> {
        match byte {
            0 => Ok(Status::Off),
            1 => Ok(Status::Active),
            _ => Err(Misfit::Range),
        }
    }
}

impl From<Status> for u8 {
    ghost from_gives = { λ status byte. byte ≡ status_byte status };

    fn from(status: Status) -> u8 {
        match status {
            Status::Off => 0,
            Status::Active => 1,
        }
    }
}

// The user of the bytes that stand behind the number.
impl TryFrom<&[u8; REST_SIZE]> for User {
    type Error = Misfit;

    ghost try_from_gives = { λ rest result. InRange Range (λ user. (rest_bytes user ≡ rest.now) × (rest_ranges rest.now ≡ true)) (rest_ranges rest.now) result };

    fn try_from(rest: &[u8; REST_SIZE]) -> Result<User, Misfit> {
        let window = Window::try_from(rest[39..50].as_array().unwrap())?;
        let status = Status::try_from(rest[50])?;
        let kind = rest[51];
        if LAST_TYPE < kind {
            return Err(Misfit::Range);
        }
        Ok(User {
            card: card::from_bytes(&rest[0..8]).unwrap(),
            name: *rest[8..39].as_array().unwrap(),
            window,
            status,
            kind,
            groups: *rest[52..56].as_array().unwrap(),
            bypass: rest[56],
            password: *rest[57..65].as_array().unwrap(),
            reserved: *rest[65..80].as_array().unwrap(),
        })
    }
}

impl From<&User> for [u8; REST_SIZE] {
    ghost from_gives = { λ user rest. rest ≡ rest_bytes user.now };

    fn from(user: &User) -> [u8; REST_SIZE] {
        let mut rest = [0; REST_SIZE];
        rest[0..8].copy_from_slice(&user.card.to_be_bytes());
        rest[8..39].copy_from_slice(&user.name);
        rest[39..50].copy_from_slice(&<[u8; WINDOW_SIZE]>::from(&user.window));
        rest[50] = u8::from(user.status);
        rest[51] = user.kind;
        rest[52..56].copy_from_slice(&user.groups);
        rest[56] = user.bypass;
        rest[57..65].copy_from_slice(&user.password);
        rest[65..80].copy_from_slice(&user.reserved);
        rest
    }
}

fn is_user(number: u32, last_user: u32) -> bool
    ensures { result ≡ user_number last_user number }
{
    (FIRST_USER..=last_user).contains(&number)
}

impl User {
    // The user of that number, of the bytes that stand behind the number.
    pub fn with_number(last_user: u32, number: u32, rest: &[u8]) -> Result<Entry<User>, Misfit>
        ensures read { Reads 84 user_bytes (user_ranges last_user) (four number ++ rest.now) result }
        ensures number { IfOk result (λ e. e.number ≡ number) }
        ensures may_have { IfOk result (λ e. user_may_have last_user e.number ≡ true) }
    {
        let rest = rest.as_array::<REST_SIZE>().ok_or(Misfit::Size)?;
        if !is_user(number, last_user) {
            return Err(Misfit::Range);
        }
        let body = User::try_from(rest)?;
        Ok(Entry { number, body })
    }
}

// The bytes of a user's number, whose field holds every u32: `to_be_bytes`, with these two facts told of it.
fn number_array(number: u32) -> [u8; NUMBER_SIZE]
    ensures bytes { result ≡ four number }
    ensures holds { four_bytes_hold number ≡ true }
{
    number.to_be_bytes()
}

impl Record for User {
    ghost long = { 84 };

    ghost encoded = { user_bytes };

    ghost decoded = { user_of };

    ghost ranges = { user_ranges };

    ghost holds = { four_bytes_hold };

    ghost numbers = { λ last n. user_number last n && four_bytes_hold n };

    ghost some_bytes = { omega arith };

    ghost sized = { λ e. UserBytes.sized e };

    ghost reads_back = { λ last e right. ranges_right last e right };

    ghost fits = { λ last n right. (and_parts _ _ right).1 };

    ghost apart = { λ e f holds holds' is. UserBytes.apart e f holds holds' is };

    ghost decodes = { λ last e right. user_yes e (and_parts _ _ right).1 };

    fn size() -> usize {
        USER_SIZE
    }

    fn from_bytes(last_user: u32, bytes: &[u8]) -> Result<Entry<User>, Misfit> {
        let (number, rest) = bytes.split_first_chunk().ok_or(Misfit::Size)?;
        User::with_number(last_user, u32::from_be_bytes(*number), rest)
    }

    fn write(item: &Entry<User>, out: &mut [u8]) -> Result<usize, Misfit> {
        let mut bytes = [0; USER_SIZE];
        bytes[..NUMBER_SIZE].copy_from_slice(&number_array(item.number));
        bytes[NUMBER_SIZE..].copy_from_slice(&<[u8; REST_SIZE]>::from(&item.body));
        place(&bytes, out)
    }
}
