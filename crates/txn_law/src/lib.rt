//! What is true of every run: theorems over definitions alone.
//!
//! A run is a list of events in which every request is licensed when it is sent (`IsRun`): nothing else is asked of the
//! clients, and of the network that it delivers a request once at most, and never one that the store refused. What was sent may
//! be served late or never, after it was lost, and after its client crashed; regions are split and led elsewhere, and the clock
//! is set, as they like.
//!
//! At each cell a start stands in one of four phases: free, locked, committed or rolled back. Each row of the request table
//! changes a cell in one of eight ways (`CellStep`), and each of these moves the phase of one start by a lock, a commit or a
//! rollback, by a lock and its commit at once, or moves none. A licence turns into a warrant when the request is sent: a fact
//! about phases, as that each key of the transaction is held, or that its primary is committed. Warrants stay true, so a request
//! may be served at any later moment. Warranted moves keep the phases of a start coherent: each lock and commit is as planned,
//! each commit is at the timestamp of the primary's, and once the primary is committed each other key holds its lock or its
//! commit.
//!
//! A start that is spread over its keys has no primary that decides. Beside its phase each key has a bound: the least commit
//! timestamp that its lock had when it was set, from then on. Once each key that is written has one, the start is settled at
//! the greatest, and this stays whatever becomes of the locks. It is lost once a key that has no bound can get none: it is
//! rolled back, or each Prewrite of it was answered with an error, and so is never served. A commit wants the one, a rollback
//! the other, and both cannot be.
//!
//! A commit timestamp is asked for once all keys are held, and a bound is above all that was read before. So a read that meets
//! no lock at a key is below each commit that may still come there, and what it was told stays.
#![tactic(auto)]

mod asks;
mod between;
mod given;
mod gone;
mod ranges;
mod reads;
mod request;
mod sample;
mod whole;

pub use asks::asks_are_answered_later;
pub use between::none_between;
pub use given::timestamps_are_given_once;
pub use gone::locks_stay_gone;
pub use ranges::epochs_tell_ranges;
pub use reads::reads_repeat;
pub use request::one_request;
pub use sample::{one_phase_sample_run, sample_run, spread_sample_run};
pub use whole::whole_or_nothing;
