//! Tests of scripts, reports and streams.
#![tactic(auto)]

#[cfg(test)]
mod fixtures;
#[cfg(test)]
mod lines;
#[cfg(test)]
mod post;
#[cfg(test)]
mod report;
#[cfg(test)]
mod script;
#[cfg(test)]
mod stream;
