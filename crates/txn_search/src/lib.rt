//! What searches have in common that ask the placement driver one query after the other.
#![tactic(auto)]

pub mod search_stage;
pub mod send;
pub mod telling;

pub use search_stage::SearchStage;
pub use telling::{pass_over, tell_query};
