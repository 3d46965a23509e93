//! Clients that are told, line by line, what a machine would tell them.
ghost use Rattle.std.specs.Prelude.{OnOk};

use crate::replies::reply;
use crate::shown::{show_ending, show_posting};
use case_words::{number, number_in, say, show, word};
use std::alloc::Global;
use std::marker::Model;
use txn_kv::{Key, NoMemory, Ticket, Value};
use txn_lines::{Act, BeginOptions, ClientAct};
use txn_side::{ClientSide, Coming, Turn};

/// All that is done is done at 10300 ms. After a call that found no memory there are no clients any more.
#[derive(Drop)]
pub struct Course<S: ClientSide> {
    clients: Option<S>,
    alloc: Global,
}

impl<S: ClientSide> Model for Course<S> {
    ghost use Rattle.std.specs.Prelude.{IfSome, Option};

    ghost Value = { Option S };

    ghost view = { λ c. c.clients };

    ghost invariant = { λ c. IfSome c.clients S.ClientSide.ready };
}

impl<S: ClientSide> Course<S> {
    pub fn new(alloc: Global, clients: S) -> Course<S>
        requires { S.ClientSide.ready clients }
    {
        Course {
            clients: Some(clients),
            alloc,
        }
    }

    pub fn serve(&mut self, rt: &HostRuntime, words: &[&str]) {
        match self.clients.take() {
            Some(clients) => self.go(rt, clients, words),
            None => say(rt, &"?"),
        }
    }

    /// The clients go on, and are kept where there was memory.
    fn go(&mut self, rt: &HostRuntime, clients: S, words: &[&str])
        requires { S.ClientSide.ready clients }
    {
        let mut clients = clients;
        match step(&mut clients, self.alloc, words) {
            Ok(turn) => {
                self.clients = Some(clients);
                show_turn(rt, &turn);
            }
            Err(error) => show(rt, &error),
        }
    }
}

/// The calls that end in a step, and what it posts.
fn show_turn(rt: &HostRuntime, turn: &Option<Turn>) {
    match turn {
        None => say(rt, &"nothing"),
        Some(turn) => {
            say(rt, &"done");
            for ending in turn.ended.as_slice() {
                show_ending(rt, ending);
            }
            for posting in turn.posted.as_slice() {
                show_posting(rt, posting);
            }
        }
    }
}

/// A step names a line, or a ticket.
fn step<S: ClientSide>(
    clients: &mut S,
    alloc: Global,
    words: &[&str],
) -> Result<Option<Turn>, NoMemory>
    requires { S.ClientSide.ready clients.old }
    ensures { OnOk result (S.ClientSide.ready clients.new) }
{
    match word(words, 1).split_once('.') {
        None => call(clients, alloc, word(words, 0), number(words, 1)),
        Some((line, number)) => hear(clients, alloc, word(words, 0), ticket(line, number)),
    }
}

/// The next line names an earlier one.
fn call<S: ClientSide>(
    clients: &mut S,
    alloc: Global,
    verb: &str,
    line: u64,
) -> Result<Option<Turn>, NoMemory>
    requires { S.ClientSide.ready clients.old }
    ensures { OnOk result (S.ClientSide.ready clients.new) }
{
    clients.open()?;
    match verb {
        "client" => {
            clients.connect(10_300)?;
            Ok(None)
        }
        "crash" => {
            clients.crash(line);
            Ok(None)
        }
        "begin" => clients.call(line, ClientAct::Begin(BeginOptions::default()), 10_300),
        "put" => clients.act(line, Act::Put(Key::empty(alloc), Value::new(alloc)), 10_300),
        _ => clients.act(line, Act::Commit, 10_300),
    }
}

/// Something comes for a ticket.
fn hear<S: ClientSide>(
    clients: &mut S,
    alloc: Global,
    verb: &str,
    ticket: Ticket,
) -> Result<Option<Turn>, NoMemory>
    requires { S.ClientSide.ready clients.old }
    ensures { OnOk result (S.ClientSide.ready clients.new) }
{
    match coming(alloc, verb) {
        Some(what) => Ok(Some(clients.tell(ticket, what, 10_300)?)),
        None => Ok(None),
    }
}

/// What comes, if it has such a name.
fn coming(alloc: Global, verb: &str) -> Option<Coming> {
    match verb {
        "woken" => Some(Coming::Slept),
        "lost" => Some(Coming::Lost),
        _ => reply(alloc, verb).map(Coming::Reply),
    }
}

/// A ticket of a call, or of a heartbeat where an h stands before its number.
fn ticket(line: &str, number: &str) -> Ticket {
    let (beat, number) = match number.strip_prefix('h') {
        None => (false, number),
        Some(number) => (true, number),
    };
    Ticket {
        line: number_in(line),
        beat,
        number: number_in(number),
    }
}
