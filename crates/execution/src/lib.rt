// Carrying out orders on five tables and the log: the questions that ask the tables, and the change.
#![tactic(auto)]

pub mod asking;
mod cards;
pub mod changing;
mod naming;
mod putting;

pub use asking::ask_tables;
pub use changing::change;
