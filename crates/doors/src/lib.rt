// What can happen at a door: which door, which way, and what the controller said.
#![tactic(auto)]

pub mod direction;
pub mod door;
pub mod event;

pub use direction::{Direction, NoDirection};
pub use door::{Door, NoDoor};
pub use event::Event;
