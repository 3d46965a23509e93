//! Moves money between accounts that a cluster keeps: a program that shows how `tikv_client` is used.
//!
//! The cluster is the model store, and each row of standard input is done before the next one is read:
//!
//! | row | what is done |
//! |---|---|
//! | `open NAME AMOUNT` | an account begins with this balance |
//! | `pay FROM TO AMOUNT` | the amount moves: one transaction writes both balances |
//! | `lose LABEL COUNT` | so many requests of this label are lost, and never handled |
//! | `hide LABEL COUNT` | so many are handled, and their replies are lost |
//!
//! A row is printed, then a `=`, and then what came of it:
//!
//! | answer | what it says |
//! |---|---|
//! | `ok TIMESTAMP` | the transaction is committed at this timestamp |
//! | `failed ERROR` | it is not committed, and it was rolled back |
//! | `unknown` | it may be committed: each Commit of its primary was lost |
//! | `refused WHY` | nothing was sent |
//!
//! Blank lines and lines that begin with `#` say nothing. In the end the program prints what the store holds for each account,
//! and the sum. Reads are not built yet, so the program keeps the balances itself. A balance whose transaction is unknown is
//! not known from then on, and the account pays nothing and gets nothing any more.
#![tactic(auto)]

mod accounts;
mod bank;
mod network;
mod rows;

use bank::Bank;
use rows::{Fault, Row};
use std::process::ExitCode;

fn run(rt: &HostRuntime) -> Result<(), Fault> {
    let alloc = rt.alloc();
    let mut bank = Bank::new(alloc)?;
    for line in rt.lines(alloc) {
        let line = line?;
        if line.is_empty() || line.starts_with('#') {
            continue;
        }
        let row = Row::parse(line.as_str())?;
        let outcome = bank.serve(row)?;
        println!(rt; "{line} = {outcome}")?;
    }
    bank.show(rt)
}

fn main(rt: HostRuntime) -> ExitCode {
    match run(&rt) {
        Ok(()) => ExitCode::SUCCESS,
        Err(fault) => {
            let _ = eprintln!(rt; "{fault:?}");
            ExitCode::FAILURE
        }
    }
}
