//! Commits and rollbacks of optimistic transactions, built of plans, and the job behind a commit.
#![tactic(auto)]

pub mod commit_parts;
pub mod committer;
pub mod fetched;
pub mod laws;
pub mod plans;
pub mod primary_commits;
pub mod secondary_job;
pub mod send;

pub use commit_parts::CommitParts;
pub use committer::{CommitterAnswer, CommitterCall};
pub use fetched::Fetched;
pub use plans::Plans;
pub use primary_commits::PrimaryCommits;
pub use secondary_job::SecondaryJob;
