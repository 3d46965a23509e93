//! A run in words, line by line, and a bad line with what would be right.
//!
//! The contracts say that text is only added, and that nothing fails but for want of memory. The words themselves are
//! tested, by what stands beside the scripts of `examples/` and `scripts/bad/`, and not proved.
#![tactic(auto)]

mod bad_line;
mod event;
mod fault;
mod forms;
mod line_words;
mod pieces;
mod request;
mod run;
mod tickets;

pub use bad_line::push_bad_line;
pub use event::Run;
pub use line_words::{first_line, first_word};
pub use pieces::{Piece, push};
pub use request::push_request;
pub use run::push_run;
pub use tickets::{Named, Tickets};
