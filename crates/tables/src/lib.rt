// Tables of numbered records. A table means a map from numbers to records, and two makes keep that meaning.
#![tactic(auto)]

pub mod edit;
pub mod entry;
pub mod ordered;
pub mod packed;
pub mod range;
pub mod slots;
pub mod table;
pub mod uses;
pub mod walk;
