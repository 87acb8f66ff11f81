// The sizes of the records and the ranges of their numbers, in one place.

pub const TIME_SET_SIZE: usize = 5;

pub const ZONE_SIZE: usize = 25;

pub const GROUP_SIZE: usize = 10;

pub const HOLIDAY_SIZE: usize = 3;

pub const USER_SIZE: usize = 84;

// A user's bytes are those of the number and the rest, which begins with the card.
pub const NUMBER_SIZE: usize = 4;

pub const REST_SIZE: usize = 80;

pub const CARD_SIZE: usize = 8;

pub const WINDOW_SIZE: usize = 11;

// Numbers 0 and 1 of a time set, a zone or a group are built in: never and always.
pub const FIRST_TIME_SET: u8 = 2;

pub const LAST_TIME_SET: u8 = 255;

pub const FIRST_ZONE: u8 = 2;

pub const LAST_ZONE: u8 = 120;

pub const FIRST_GROUP: u8 = 2;

pub const LAST_GROUP: u8 = 255;

pub const FIRST_HOLIDAY: u8 = 0;

pub const LAST_HOLIDAY: u8 = 99;

pub const FIRST_USER: u32 = 1;

pub const LAST_TYPE: u8 = 5;
