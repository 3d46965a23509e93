ghost use Rattle.std.specs.Prelude.{◌≡◌, ◌-◌, [], IfSome, Some, false, is_some, not, slice_index_or, slice_set, true};
ghost use Rattle.txn_clients.specs.Accounts.{account_at};
ghost use Rattle.txn_clients.specs.Clients.{IsLine, crashed_of, nexts_of, row_at, rows_of, sight_of};
ghost use Rattle.txn_clients.specs.Rows.{with_waits};
ghost use Rattle.txn_side.specs.Account.{AreNew};
ghost use Rattle.txn_clients.specs.Waiting.{IsReady, asks_of};
ghost use Rattle.txn_side.specs.Sight.{client_at, is_live, line_count, nobody, stand_at};

mod asking;
mod groups;
mod hearts;
mod posting;
mod telling;

use crate::client_state::ClientState;
use crate::place::Place;
use crate::row::Row;
use std::alloc::Global;
use txn_commit::Plans;

/// The clients of a run, and what stands at each of its lines.
pub struct Clients<P> {
    places: Vec<Place<P>>,
    clients: Vec<ClientState>,
    alloc: Global,
}

impl<P: Drop> Drop for Clients<P> {
    fn drop(self) {
        let Clients {
            places,
            clients,
            alloc: _,
        } = self;
        drop(places);
        drop(clients);
    }
}

/// Where it stands what hears what comes for a line, and its client.
#[derive(Clone, Copy, Debug)]
pub struct Listener {
    pub at: usize,
    pub client: usize,
}

impl<P> Clients<P>
where
    P: Plans,
{
    /// No lines, and no clients. Takes no memory.
    pub fn new(alloc: Global) -> Clients<P>
        ensures sight { sight_of result ≡ nobody }
        ensures rows { rows_of result ≡ [] }
        ensures accounts { AreNew (account_at (rows_of result)) }
        ensures ready { IsReady P.ways result }
    {
        Clients {
            places: Vec::new(alloc),
            clients: Vec::new(alloc),
            alloc,
        }
    }
}

impl<P> Clients<P> {
    /// The number of the newest line.
    fn newest(&self) -> u64
        ensures { result ≡ line_count (sight_of self.now) }
    {
        self.places.len() as u64
    }

    /// The row of a line.
    fn row(&self, line: u64) -> &Row<P>
        requires { IsLine (sight_of self.now).stands line }
        ensures { result.now ≡ row_at (rows_of self.now) (line - 1) }
    {
        &self.places[line as usize - 1].row
    }

    /// The client of a line, if it has one.
    fn client_at(&self, line: u64) -> Option<usize>
        ensures { result ≡ client_at (stand_at (sight_of self.now).stands line) }
    {
        if line == 0 || line > self.newest() {
            return None;
        }
        self.row(line).client()
    }

    /// Whether there is such a client, which has not crashed.
    fn is_there(&self, client: usize) -> bool
        ensures { result ≡ not (slice_index_or (crashed_of self.now) client true) }
    {
        match self.clients.get(client) {
            None => false,
            Some(state) => !state.crashed,
        }
    }

    /// The client of a line, if it has one that has not crashed.
    fn live_client(&self, line: u64) -> Option<usize>
        ensures live { is_some result ≡ is_live (sight_of self.now) line }
        ensures client { IfSome result (λ client. client_at (stand_at (sight_of self.now).stands line) ≡ Some client) }
        ensures there { IfSome result (λ client. slice_index_or (crashed_of self.now) client true ≡ false) }
    {
        match self.client_at(line) {
            None => None,
            Some(client) => {
                if self.is_there(client) {
                    Some(client)
                } else {
                    None
                }
            }
        }
    }
}

impl<P: Drop> Clients<P> {
    /// Another row stands at a line.
    fn set_row(&mut self, line: u64, row: Row<P>)
        requires { IsLine (sight_of self.old).stands line }
        ensures rows { rows_of self.new ≡ slice_set (rows_of self.old) (line - 1) row }
        ensures asks { asks_of self.new ≡ asks_of self.old }
        ensures nexts { nexts_of self.new ≡ nexts_of self.old }
        ensures clients { self.new.clients ≡ self.old.clients }
    {
        self.places[line as usize - 1].row = row;
    }

    /// The transaction of a line waits for another line, or for none where that is 0.
    fn set_waits(&mut self, transaction: u64, line: u64)
        requires { IsLine (sight_of self.old).stands transaction }
        ensures rows { rows_of self.new ≡ slice_set (rows_of self.old) (transaction - 1) (with_waits line (row_at (rows_of self.old) (transaction - 1))) }
        ensures asks { asks_of self.new ≡ asks_of self.old }
        ensures nexts { nexts_of self.new ≡ nexts_of self.old }
        ensures clients { self.new.clients ≡ self.old.clients }
    {
        self.places[transaction as usize - 1].row.wait_for(line);
    }
}
