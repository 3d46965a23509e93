//! Serves the cases on standard input to model stores, and prints each reply and what each case leaves.
//!
//! A line `case TITLE` begins with an opening store, and what the case before it leaves is printed. Every other line is a
//! request, or changes the store from outside, or sets the context of the requests after it. Keys and values are words, and
//! `-` is the empty one. Blank lines and lines that begin with `#` say nothing.
//!
//! | line | request |
//! |---|---|
//! | `get KEY VERSION`, `bget VERSION KEY..` | Get, BatchGet |
//! | `scan START END LIMIT VERSION`, and `keys` and `down` behind it | Scan, with keys alone, reversed |
//! | `prewrite START PRIMARY TTL FOR_UPDATE MUTATION..` | Prewrite; a mutation is `OP:KEY` or `OP:KEY=VALUE`, and `OP!:..` where its flag is true |
//! | `async ..`, `once ..`, `asynconce ..` | the same with use_async_commit, with try_one_pc, with both; in each a word `also:KEY` names a secondary |
//! | `commit START COMMIT KEY..`, `cleanup START KEY`, `rollback START KEY..` | Commit, Cleanup, BatchRollback |
//! | `lock START PRIMARY TTL FOR_UPDATE MUTATION..`, `lockread ..` | PessimisticLock; the latter asks for values. The op `absent` asserts that there is none |
//! | `unlock START FOR_UPDATE KEY..` | PessimisticRollback |
//! | `status PRIMARY START NOW`, and `missing`, `resolving` and `forced` behind it | CheckTxnStatus, that rolls back what is missing, that resolves a pessimistic lock, that is forced |
//! | `secondaries START KEY..`, `beat START PRIMARY TTL` | CheckSecondaryLocks, TxnHeartBeat |
//! | `resolve START COMMIT`, `resolves START=COMMIT..` | ResolveLock |
//! | `locks START END VERSION LIMIT`, `destroy START END` | ScanLock, UnsafeDestroyRange |
//! | `region KEY`, `regionid ID`, `store ID`, `stores`, `safepoint T`, `tso COUNT`, `tsos TIMES COUNT`, `members` | to the placement driver; the key is encoded first, and `tsos` shows the last reply |
//! | `split KEY`, `lead REGION STORE`, `clock MILLISECONDS` | none |
//! | `via REGION STORE CONF VERSION`, `via nothing` | none: the context from here on, where `-` leaves the peer or the epoch out |
//!
//! A line of a reply has the request's word and what the reply says, errors by the names of their variants. A Prewrite says
//! its bound and the timestamp at which it committed where they are not 0. An async lock shows its bound, and a lock its
//! secondaries. What a case
//! leaves is a line for each lock, commit and rolled start, and one for the numbers that are not 0.
#![tactic(auto)]

mod locking;
mod placing;
mod reading;
mod session;
mod settling;
mod shown;
mod words;
mod writing;

use case_words::Fault;
use session::Session;
use std::process::ExitCode;
use words::words;

fn run(rt: &HostRuntime) -> Result<(), Fault> {
    let alloc = rt.alloc();
    let mut session = Session::new(alloc)?;
    for line in rt.lines(alloc) {
        let line = line?;
        let words = words(alloc, line.as_str())?;
        session.serve(rt, line.as_str(), words.as_slice())?;
    }
    session.leave(rt)
}

fn main(rt: HostRuntime) -> ExitCode {
    match run(&rt) {
        Ok(()) => ExitCode::SUCCESS,
        Err(fault) => {
            let _ = eprintln!(rt; "{fault:?}");
            ExitCode::FAILURE
        }
    }
}
