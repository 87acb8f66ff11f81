// Which event a card gets at a door and a minute, told from the records that stand in five tables.
#![tactic(auto)]

pub mod answer;
pub mod cards;
pub mod covers;
pub mod days;
pub mod events;
pub mod groups;
pub mod makes;
pub mod site;

pub use answer::Answer;
pub use makes::{Makes, Tables};
pub use site::Site;
