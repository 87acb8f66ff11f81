// The five kinds of record, to and from their bytes. A record is its number and its body.
#![tactic(auto)]

pub mod card;
mod codec;
pub mod group;
pub mod groups;
pub mod holiday;
pub mod holidays;
pub mod limits;
pub mod named;
pub mod numbered;
pub mod record;
pub mod row;
pub mod time_set;
pub mod time_sets;
pub mod user;
pub mod users;
pub mod window;
mod windows;
pub mod zone;
pub mod zones;

pub use group::Group;
pub use holiday::Holiday;
pub use named::Named;
pub use numbered::ByteNumbered;
pub use record::{Misfit, Record};
pub use row::Row;
pub use time_set::TimeSet;
pub use user::{Status, User};
pub use window::{Validity, Window};
pub use zone::Zone;
