//! A run as a picture: an SVG with a lifeline for each client, the placement driver and each store, and a row for each line.
//!
//! The contracts say that text is only added, and that nothing fails but for want of memory. The pictures themselves are
//! tested, by what stands beside the scripts of `examples/`, and not proved.
#![tactic(auto)]

mod arrows;
mod columns;
mod frame;
mod labels;
mod lifelines;
mod margins;
mod marks;
mod picture;
mod rows;
mod scene;
mod shapes;
mod text;
mod waits;
mod world;

pub use picture::push_picture;
