//! Tests of the machines.
#![tactic(auto)]

#[cfg(test)]
mod alike;
#[cfg(test)]
mod first;
#[cfg(test)]
mod fixtures;
#[cfg(test)]
mod machine;
