//! A plan over many regions: its request is cut into shards, each of which is sent to its region and tried again.
#![tactic(auto)]

pub mod cutting;
pub mod multi_region;
pub mod multi_stage;
pub mod part;
pub mod region_plan;
pub mod region_request;
pub mod stage;
pub mod task;

pub use multi_region::RetryableMultiRegion;
pub use part::Part;
pub use region_plan::RegionPlan;
pub use region_request::RegionRequest;
pub use task::RegionTask;
