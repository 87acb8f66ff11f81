// What a frame asks and how its answer looks.
#![tactic(auto)]

mod body;
pub mod command;
pub mod heading;
pub mod opening;
pub mod order;
pub mod protocol;
pub mod refusal;
pub mod reply;
pub mod size;

pub use command::Command;
pub use heading::Heading;
pub use opening::{ask, open};
pub use order::{NewUser, Order, Place};
pub use protocol::reading::read;
pub use refusal::{AnswerRefusal, Refusal, SetUpRefusal, ShowRefusal};
pub use size::BodySize;
