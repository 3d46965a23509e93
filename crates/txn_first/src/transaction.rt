ghost use Rattle.std.specs.Prelude.{◌≡◌, IfOk, None};
ghost use Rattle.txn_first.specs.Standing.{free_status};
ghost use Rattle.txn_first.specs.Commit.{Step, started, turned, version_in, fails, found_region, found_store, prewrote, stamped, committed, stage_turned, sends, at_stage, prewrite_of, commit_of, place_of};

use std::alloc::Global;
use txn_kv::{
    ApiVersion, Assertion, CommitRequest, CommitResponse, Context, Error, GetRegionRequest,
    GetRegionResponse, GetStoreRequest, Internal, Items, Key, Mutation, NoMemory, Op, Peer,
    PrewriteRequest, PrewriteResponse, Region, Reply, Request, StoreId, Target, Timestamp,
    TimestampExt, TsoRequest, Value,
};
use txn_report::{Outcome, Payload};

/// How far a transaction has come.
#[derive(Clone, Copy, Debug, PartialEq, Eq)]
pub enum Status {
    Active,
    StartedCommit,
    Committed,
}

/// A write that is not committed yet.
#[derive(Debug, Drop)]
pub struct Put {
    pub key: Key,
    pub value: Value,
}

/// Where the region of a transaction's key is.
#[derive(Clone, Copy, Debug, PartialEq, Eq)]
pub struct Place {
    pub context: Context,
    pub store: StoreId,
}

/// What a commit waits for.
#[derive(Clone, Copy, Debug, PartialEq, Eq)]
pub enum Stage {
    FindingRegion,
    FindingStore { place: Place },
    Prewriting { place: Place },
    Stamping { place: Place },
    Committing { place: Place, commit: u64 },
}

/// A commit that is under way, of this line.
#[derive(Clone, Copy, Debug, PartialEq, Eq)]
pub struct CommitCall {
    pub line: u64,
    pub stage: Stage,
}

/// A transaction that has begun. It writes at most one key.
#[derive(Debug, Drop)]
pub struct Transaction {
    pub start: u64,
    pub status: Status,
    pub put: Option<Put>,
    pub call: Option<CommitCall>,
}

/// A request that is to be sent.
#[derive(Debug, Drop)]
pub struct Sending {
    pub to: Target,
    pub request: Request,
}

/// What a call does next: what it sends, and how it ends, if it does.
#[derive(Debug, Drop)]
pub struct Turn {
    pub send: Option<Sending>,
    pub outcome: Option<Outcome>,
}

/// How long a lock lives that a commit sets, in milliseconds.
const LOCK_TTL: u64 = 3000;

/// The version of a timestamp, if its parts are in range.
pub fn version_in(timestamp: Option<Timestamp>) -> Option<u64>
    ensures { result ≡ version_in timestamp }
{
    match timestamp {
        None => None,
        Some(timestamp) => {
            if timestamp.physical >= 0
                && timestamp.physical < 1 << 46
                && timestamp.logical >= 0
                && timestamp.logical < 1 << 18
            {
                Some(timestamp.version())
            } else {
                None
            }
        }
    }
}

impl Put {
    /// The same write, in new memory.
    fn try_clone(&self) -> Result<Put, NoMemory>
        ensures { IfOk result (λ copy. copy ≡ self.now) }
    {
        Ok(Put {
            key: self.key.try_clone()?,
            value: self.value.try_clone()?,
        })
    }

    /// Locks the key, which is its own primary.
    fn prewrite(&self, alloc: Global, start: u64, place: Place) -> Result<Request, NoMemory>
        ensures { IfOk result (λ request. request ≡ prewrite_of start self.now place) }
    {
        let put = self.try_clone()?;
        let primary_lock = self.key.try_clone()?;
        let mut mutations = Items::new(alloc);
        mutations.push(Mutation {
            op: Op::Put,
            key: put.key,
            value: put.value,
            assertion: Assertion::None,
        })?;
        Ok(Request::Prewrite(PrewriteRequest {
            context: Some(place.context),
            mutations,
            primary_lock,
            start_version: start,
            lock_ttl: LOCK_TTL,
            txn_size: u64::MAX,
            for_update_ts: 0,
            is_pessimistic_lock: Items::new(alloc),
            use_async_commit: false,
            try_one_pc: false,
            secondaries: Items::new(alloc),
        }))
    }

    /// Commits the key.
    fn commit(
        &self,
        alloc: Global,
        start: u64,
        place: Place,
        commit: u64,
    ) -> Result<Request, NoMemory>
        ensures { IfOk result (λ request. request ≡ commit_of start self.now place commit) }
    {
        let mut keys = Items::new(alloc);
        keys.push(self.key.try_clone()?)?;
        Ok(Request::Commit(CommitRequest {
            context: Some(place.context),
            keys,
            start_version: start,
            commit_version: commit,
        }))
    }
}

impl Transaction {
    /// A transaction that has begun. Takes no memory.
    pub fn new(start: u64) -> Transaction
        ensures { result ≡ record { start = start; status = Status.Active; put = None; call = None } }
    {
        Transaction {
            start,
            status: Status::Active,
            put: None,
            call: None,
        }
    }

    /// Its status, if it has no call open.
    pub fn free_status(&self) -> Option<Status>
        ensures { result ≡ free_status self.now }
    {
        match self.call {
            None => Some(self.status),
            Some(_) => None,
        }
    }

    /// Begins to commit, for a line.
    pub fn start_commit(&mut self, line: u64) -> Result<Turn, NoMemory>
        ensures { IfOk result (λ turn. record { transaction = self.new; turn = turn } ≡ started self.old line) }
    {
        match &self.put {
            None => {
                self.status = Status::StartedCommit;
                self.call = None;
                Ok(Turn {
                    send: None,
                    outcome: Some(Outcome::Ok(Payload::Commit(None))),
                })
            }
            Some(put) => {
                let region_key = put.key.to_encoded()?;
                self.status = Status::StartedCommit;
                Ok(self.send(
                    line,
                    Stage::FindingRegion,
                    Target::Placement,
                    Request::GetRegion(GetRegionRequest { region_key }),
                ))
            }
        }
    }

    /// Takes the reply that its commit waits for.
    pub fn take_reply(&mut self, alloc: Global, reply: &Reply) -> Result<Turn, NoMemory>
        ensures { IfOk result (λ turn. record { transaction = self.new; turn = turn } ≡ turned self.old reply.now) }
    {
        match self.call {
            None => Ok(Turn {
                send: None,
                outcome: None,
            }),
            Some(call) => self.take(alloc, call.line, call.stage, reply),
        }
    }

    fn take(
        &mut self,
        alloc: Global,
        line: u64,
        stage: Stage,
        reply: &Reply,
    ) -> Result<Turn, NoMemory>
        ensures { IfOk result (λ turn. record { transaction = self.new; turn = turn } ≡ stage_turned self.old line stage reply.now) }
    {
        match stage {
            Stage::FindingRegion => Ok(self.take_region(line, reply)),
            Stage::FindingStore { place } => self.take_store(alloc, line, place, reply),
            Stage::Prewriting { place } => Ok(self.take_prewrite(line, place, reply)),
            Stage::Stamping { place } => self.take_timestamp(alloc, line, place, reply),
            Stage::Committing { place, commit } => Ok(self.take_commit(line, place, commit, reply)),
        }
    }

    fn take_region(&mut self, line: u64, reply: &Reply) -> Turn
        ensures { record { transaction = self.new; turn = result } ≡ stage_turned self.old line Stage.FindingRegion reply.now }
    {
        match reply {
            Reply::GetRegion(found) => self.find_store(line, &found.region, found.leader),
            _ => self.fail(),
        }
    }

    fn find_store(&mut self, line: u64, region: &Option<Region>, leader: Option<Peer>) -> Turn
        ensures { record { transaction = self.new; turn = result } ≡ found_region self.old line region.now leader }
    {
        match region {
            None => self.fail(),
            Some(region) => match leader {
                None => self.fail(),
                Some(leader) => {
                    let place = Place {
                        context: Context {
                            region_id: region.id,
                            region_epoch: region.region_epoch,
                            peer: Some(leader),
                            api_version: ApiVersion::V1,
                        },
                        store: leader.store_id,
                    };
                    self.send(
                        line,
                        Stage::FindingStore { place },
                        Target::Placement,
                        Request::GetStore(GetStoreRequest {
                            store_id: leader.store_id,
                        }),
                    )
                }
            },
        }
    }

    fn take_store(
        &mut self,
        alloc: Global,
        line: u64,
        place: Place,
        reply: &Reply,
    ) -> Result<Turn, NoMemory>
        ensures { IfOk result (λ turn. record { transaction = self.new; turn = turn } ≡ stage_turned self.old line (Stage.FindingStore place) reply.now) }
    {
        match reply {
            Reply::GetStore(_) => self.prewrite(alloc, line, place),
            _ => Ok(self.fail()),
        }
    }

    fn prewrite(&mut self, alloc: Global, line: u64, place: Place) -> Result<Turn, NoMemory>
        ensures { IfOk result (λ turn. record { transaction = self.new; turn = turn } ≡ found_store self.old line place self.old.put) }
    {
        match &self.put {
            None => Ok(self.fail()),
            Some(put) => {
                let request = put.prewrite(alloc, self.start, place)?;
                Ok(self.send(
                    line,
                    Stage::Prewriting { place },
                    Target::Store(place.store),
                    request,
                ))
            }
        }
    }

    fn take_prewrite(&mut self, line: u64, place: Place, reply: &Reply) -> Turn
        ensures { record { transaction = self.new; turn = result } ≡ stage_turned self.old line (Stage.Prewriting place) reply.now }
    {
        match reply {
            Reply::Prewrite(answer) => self.stamp(line, place, answer),
            _ => self.fail(),
        }
    }

    fn stamp(&mut self, line: u64, place: Place, answer: &PrewriteResponse) -> Turn
        ensures { record { transaction = self.new; turn = result } ≡ prewrote self.old line place answer.now.region_error answer.now.errors }
    {
        match &answer.region_error {
            Some(_) => self.fail(),
            None => match answer.errors.as_slice() {
                [] => self.send(
                    line,
                    Stage::Stamping { place },
                    Target::Placement,
                    Request::Tso(TsoRequest { count: 1 }),
                ),
                _ => self.fail(),
            },
        }
    }

    fn take_timestamp(
        &mut self,
        alloc: Global,
        line: u64,
        place: Place,
        reply: &Reply,
    ) -> Result<Turn, NoMemory>
        ensures { IfOk result (λ turn. record { transaction = self.new; turn = turn } ≡ stage_turned self.old line (Stage.Stamping place) reply.now) }
    {
        match reply {
            Reply::Tso(answer) => self.commit(alloc, line, place, version_in(answer.timestamp)),
            _ => Ok(self.fail()),
        }
    }

    fn commit(
        &mut self,
        alloc: Global,
        line: u64,
        place: Place,
        version: Option<u64>,
    ) -> Result<Turn, NoMemory>
        ensures { IfOk result (λ turn. record { transaction = self.new; turn = turn } ≡ stamped self.old line place self.old.put version) }
    {
        match &self.put {
            None => Ok(self.fail()),
            Some(put) => match version {
                None => Ok(self.fail()),
                Some(commit) => {
                    let request = put.commit(alloc, self.start, place, commit)?;
                    Ok(self.send(
                        line,
                        Stage::Committing { place, commit },
                        Target::Store(place.store),
                        request,
                    ))
                }
            },
        }
    }

    fn take_commit(&mut self, line: u64, place: Place, commit: u64, reply: &Reply) -> Turn
        ensures { record { transaction = self.new; turn = result } ≡ stage_turned self.old line (Stage.Committing place commit) reply.now }
    {
        match reply {
            Reply::Commit(answer) => self.finish(commit, answer),
            _ => self.fail(),
        }
    }

    fn finish(&mut self, commit: u64, answer: &CommitResponse) -> Turn
        ensures { record { transaction = self.new; turn = result } ≡ committed self.old commit answer.now.region_error answer.now.error }
    {
        match &answer.region_error {
            Some(_) => self.fail(),
            None => match &answer.error {
                Some(_) => self.fail(),
                None => {
                    self.status = Status::Committed;
                    self.call = None;
                    Turn {
                        send: None,
                        outcome: Some(Outcome::Ok(Payload::Commit(Some(commit)))),
                    }
                }
            },
        }
    }

    /// Sends a request, and waits for its reply at this stage.
    fn send(&mut self, line: u64, stage: Stage, to: Target, request: Request) -> Turn
        ensures { record { transaction = self.new; turn = result } ≡ sends (at_stage self.old line stage) to request }
    {
        self.call = Some(CommitCall { line, stage });
        Turn {
            send: Some(Sending { to, request }),
            outcome: None,
        }
    }

    /// Ends the commit at a reply that it has no use for.
    fn fail(&mut self) -> Turn
        ensures { record { transaction = self.new; turn = result } ≡ fails self.old }
    {
        self.call = None;
        Turn {
            send: None,
            outcome: Some(Outcome::Err(Error::InternalError {
                what: Internal::WrongReply,
            })),
        }
    }
}
