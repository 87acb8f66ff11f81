// The line of a door controller: received bytes become whole frames.
// A line is `Listening` or `Holding`. What it hears is said by `hears` of specs/Rule.antt.
#![tactic(auto)]

mod feeding;
pub mod frame;
pub mod state;

pub use frame::checksum;
pub use state::{Fed, FrameBuffer, Holding, Line, Listening, PendingReply};
