//! What is there to be timed, by its first word:
//!
//! - `store PAIRS ORDER`, where the order in which keys come is `rising` or `scattered`;
//! - `regions REGIONS LOOKUPS`, and a fourth word `id` where ids are looked up.
#![tactic(auto)]

mod regions;
mod stores;

use case_words::Fault;
use std::env;
use std::process::ExitCode;

/// The number that a word spells.
fn number(word: &String) -> Result<u32, Fault> {
    word.as_str().parse::<u32>().map_err(|_| Fault::Words)
}

fn run(rt: &HostRuntime) -> Result<(), Fault> {
    let mut words = Vec::new(rt.alloc());
    for word in env::args(rt)?.skip(1) {
        words.push(word)?;
    }
    let [mode, first, second, more @ ..] = words.as_slice() else {
        return Err(Fault::Words);
    };
    match mode.as_str() {
        "store" => stores::serve(rt, number(first)?, second.as_str() == "scattered"),
        "regions" => {
            let look_ups = u64::from(number(second)?);
            regions::look_up(rt, number(first)?, look_ups, !more.is_empty())
        }
        _ => Err(Fault::Words),
    }
}

fn main(rt: HostRuntime) -> ExitCode {
    match run(&rt) {
        Ok(()) => ExitCode::SUCCESS,
        Err(fault) => {
            let _ = eprintln!(rt; "{fault:?}");
            ExitCode::FAILURE
        }
    }
}
