//! The model store: what a request does to it, and what it replies.
#![tactic(auto)]

mod bounds;
pub mod cell;
mod cells;
mod change;
mod commit;
mod commits;
mod destroy;
mod facts;
mod heart_beat;
mod landing;
mod lead;
mod pessimistic;
mod placement;
mod prewrite;
mod ranges;
mod read;
pub mod region;
mod rollback;
mod rule;
mod scan;
mod secondaries;
pub mod send;
mod settle;
mod split;
mod status;
pub mod store;
mod unlock;

pub use cell::{Cell, Kind, Lock, Write};
pub use facts::{
    cells_stay_in_order, commits_and_rollbacks_stay, locks_leave, numbers_never_fall,
    refusals_change_nothing, rolled_back_stays_without, timestamps_rise, what_is_kept_comes,
};
pub use region::StoredRegion;
pub use store::ModelStore;
