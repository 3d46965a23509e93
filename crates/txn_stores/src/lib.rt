//! A plan that is sent to every store, and is tried again where a request is lost.
#![tactic(auto)]

pub mod all_stage;
pub mod all_stores;
pub mod stage;
pub mod store_plan;
pub mod store_search;
pub mod store_task;

pub use all_stores::RetryableAllStores;
pub use store_plan::StorePlan;
pub use store_task::StoreTask;
