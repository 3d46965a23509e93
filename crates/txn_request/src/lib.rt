//! Requests: their constructors, and what every kind of request has in common.
#![tactic(auto)]

pub mod kv_request;
pub mod lowering;
pub mod requests;

pub use kv_request::KvRequest;
