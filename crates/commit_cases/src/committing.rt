//! A commit or a rollback and the job behind it, with their client and their outbox.
use crate::changes::parts;
use crate::replies::{arrival, first, second};
use crate::shown::{show_errands, show_progress};
use case_words::{say, show, word};
use std::alloc::Global;
use std::marker::Model;
use txn_commit::{
    CommitParts, CommitterAnswer, CommitterCall, Plans, PrimaryCommits, SecondaryJob,
};
use txn_fakes::NoClient;
use txn_kv::{Items, Key, NoMemory, Outbox, Progress};
use txn_merge::RetryOptions;

/// All comes at 0 ms.
pub struct Committing<P>
where
    P: Plans,
{
    call: CommitterCall<P>,
    job: SecondaryJob<P>,
    commits: PrimaryCommits,
    pd: NoClient,
    out: Outbox,
    alloc: Global,
}

/// By one call: a derived drop is opened at each exit that holds such a value.
impl<P> Drop for Committing<P>
where
    P: Plans,
{
    fn drop(self) {
        let Committing {
            call,
            job,
            commits,
            pd,
            out,
            alloc: _,
        } = self;
        drop(call);
        drop(job);
        drop(commits);
        drop(pd);
        drop(out);
    }
}

impl<P> Model for Committing<P>
where
    P: Plans,
{
    ghost use Rattle.txn_commit.specs.Committing.{StageReady};
    ghost use Rattle.txn_commit.specs.Jobs.{JobReady};
    ghost use Rattle.txn_commit.specs.declared.committer.CommitterCall.{CommitterCall};
    ghost use Rattle.txn_history.specs.Posted.{HasNumbers};
    ghost use Rattle.txn_kv.specs.Timestamp.{HasVersion};

    ghost Value = { CommitterCall P };

    ghost view = { λ l. l.call };

    ghost invariant = { λ l. HasVersion l.call.start × StageReady P.ways l.call.stage × JobReady P.ways.plan l.job × HasNumbers l.out };
}

impl<P> Committing<P>
where
    P: Plans,
{
    /// Of a buffer after the changes behind the first word, if it has parts.
    pub fn begin(alloc: Global, words: &[&str]) -> Option<Self> {
        match parts(alloc, words) {
            Some(parts) => Some(Committing::of_parts(alloc, parts)),
            None => None,
        }
    }

    fn of_parts(alloc: Global, parts: CommitParts) -> Self {
        let keys = keys(alloc);
        let retries = RetryOptions::default_optimistic();
        Committing {
            call: CommitterCall::new(alloc, first(), parts, RetryOptions::default_optimistic()),
            job: SecondaryJob::new(alloc, first(), second(), keys, retries),
            commits: PrimaryCommits::new(alloc),
            pd: NoClient::new(),
            out: Outbox::new(alloc, 6, false),
            alloc,
        }
    }

    pub fn serve(&mut self, rt: &HostRuntime, words: &[&str]) {
        let posted = self.out.sends.len();
        match word(words, 0) {
            "undetermined" => show(rt, &self.commits.undetermined()),
            "start_job" => show_progress(rt, &self.start_job()),
            "job" => self.job(rt, words),
            "prewrite" => show_progress(rt, &self.prewrite()),
            "roll_back" => show_progress(rt, &self.roll_back()),
            _ => self.take(rt, words),
        }
        show_errands(rt, self.out.sends.as_slice(), posted);
    }

    fn start_job(&mut self) -> Result<Progress<()>, NoMemory> {
        self.job.start(&mut self.pd, 0, &mut self.out)
    }

    /// The job is told of something.
    fn job(&mut self, rt: &HostRuntime, words: &[&str]) {
        match arrival(self.alloc, words, 1) {
            Some(arrival) => {
                let turn = self.job.tell(arrival, &mut self.pd, 0, &mut self.out);
                show_progress(rt, &turn);
            }
            None => say(rt, &"?"),
        }
    }

    fn prewrite(&mut self) -> Result<Progress<CommitterAnswer>, NoMemory> {
        self.call.prewrite(&mut self.pd, 0, 3000, &mut self.out)
    }

    fn roll_back(&mut self) -> Result<Progress<CommitterAnswer>, NoMemory> {
        self.call.roll_back(&mut self.pd, 0, &mut self.out)
    }

    /// The call is told of something.
    fn take(&mut self, rt: &HostRuntime, words: &[&str]) {
        match arrival(self.alloc, words, 0) {
            Some(arrival) => {
                let (commits, pd, out) = (&mut self.commits, &mut self.pd, &mut self.out);
                let turn = self.call.tell(commits, arrival, pd, 0, out);
                show_progress(rt, &turn);
            }
            None => say(rt, &"?"),
        }
    }
}

/// The key that the job commits.
fn keys(alloc: Global) -> Items<Key> {
    let mut keys = Items::new(alloc);
    let _ = keys.push(Key::from(case_words::bytes(alloc, "b")));
    keys
}
