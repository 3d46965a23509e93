//! Tests of the program.
#![tactic(auto)]

#[cfg(test)]
mod bad_lines;
#[cfg(test)]
mod runs;
