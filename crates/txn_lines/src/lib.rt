//! Scripts: the lines that a user writes, their grammar, and why a line is bad.
#![tactic(auto)]

pub mod act;
pub mod begin_options;
pub mod client_act;
pub mod deed;
mod fields;
pub mod happening;
pub mod laws;
pub mod line;
pub mod line_kinds;
mod mutations;
mod parser;
pub mod script;
mod script_parser;
pub mod send;
mod stop;
mod words;

pub use act::Act;
pub use begin_options::BeginOptions;
pub use client_act::ClientAct;
pub use deed::Deed;
pub use happening::Happening;
pub use line::Line;
pub use line_kinds::{LineKind, LineKinds};
pub use parser::parse_line;
pub use script::{BadAt, Script, Why};
pub use script_parser::parse_script;
