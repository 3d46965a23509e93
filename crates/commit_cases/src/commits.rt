//! What is known of the Commits of a primary.
use crate::replies::{arrival, reply, second};
use case_words::{number, show, word};
use std::alloc::Global;
use txn_commit::PrimaryCommits;
use txn_kv::{CommitRequest, Items, NoMemory, Outbox, Request, Target};

/// Commits, and the line that they are sent on.
#[derive(Drop)]
pub struct Followed {
    commits: PrimaryCommits,
    out: Outbox,
}

/// A line on which a Commit is posted behind a sleep.
fn posted(alloc: Global) -> Result<Outbox, NoMemory> {
    let mut out = Outbox::new(alloc, 6, false);
    out.sleep(2)?;
    let request = CommitRequest {
        context: None,
        keys: Items::new(alloc),
        start_version: 1,
        commit_version: 2,
    };
    out.send(Target::Store(1), Request::Commit(request))?;
    Ok(out)
}

fn sent(alloc: Global) -> Result<Followed, NoMemory> {
    let out = posted(alloc)?;
    let mut commits = PrimaryCommits::new(alloc);
    commits.send(&out, 1, second())?;
    Ok(Followed { commits, out })
}

impl Followed {
    /// A Commit is sent behind a sleep, if there is memory.
    pub fn begin(alloc: Global) -> Option<Followed> {
        match sent(alloc) {
            Ok(followed) => Some(followed),
            Err(_) => None,
        }
    }

    pub fn serve(&mut self, rt: &HostRuntime, words: &[&str]) {
        match word(words, 0) {
            "timestamp" => show(rt, &self.commits.timestamp()),
            "undetermined" => show(rt, &self.commits.undetermined()),
            "has_lost" => show(rt, &self.commits.has_lost()),
            "count_out" => show(rt, &self.commits.count_out()),
            _ => self.learn(rt.alloc(), words),
        }
    }

    /// Learns what became of a request.
    fn learn(&mut self, alloc: Global, words: &[&str]) {
        match word(words, 0) {
            "take" => {
                if let Some(reply) = reply(alloc, word(words, 1)) {
                    let ticket = self.out.ticket(number(words, 2));
                    self.commits.take(ticket, &reply);
                }
            }
            "hear" => {
                if let Some(arrival) = arrival(alloc, words, 1) {
                    self.commits.hear(&arrival, &self.out);
                }
            }
            _ => self.commits.lose(self.out.ticket(number(words, 1))),
        }
    }
}
