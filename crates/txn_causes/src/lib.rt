//! What an error of a commit or a rollback has its cause in: definitions, and what they come to.
//!
//! `Heard` says what an error may rest on: a reply that was taken, a request that was lost. `HasCause` goes through an error by its
//! view, with one row for each kind: an error of a region or of a key stands in a taken reply, a lost request is named by its
//! ticket, a list of errors has their causes. What was heard is a parameter, so that a history (`heard_in`) and
//! whatever else tells of replies and losses can be cited alike. So is what says that the backoff of a plan is spent, by which
//! it tries again what it sends to stores: for a plan over regions that is `IsSpent`.
#![tactic(auto)]

mod laws;

pub use laws::{causes_stay, nothing_causes_nothing};
