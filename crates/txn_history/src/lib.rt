//! What happened in a run, as definitions alone.
//!
//! `Event` says what may happen, in the order of a run: what was sent, served, taken, refused and lost, which sleeps and asks
//! for timestamps there were, and what changed the store from outside. `Licence` says what each request has to rest on when
//! it is sent, by what was sent and taken before, and `Plan` what a transaction means to write.
//!
//! Two clauses are for the event calls of a client's states. `Moves` says, over every history from which the state can have
//! arisen, that what the call posts is licensed, and that the new state and the answer stand on the longer history. `Spends`
//! says how many requests it posts, and how many are left to post. Both go through nested states by the combinators in
//! `specs/Moves.antt` and `proofs/Counting.antt`.
#![tactic(auto)]
