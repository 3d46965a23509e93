//! The ResolveLock of a lock, which is tried again after an error of its region.
ghost use Rattle.std.specs.Prelude.{◌≡◌, ◌<◌, ◌≤◌, ◌+◌, ⊤, false, is_some, IfErr, IfOk, Ok, OnOk};
ghost use Rattle.txn_history.specs.Faults.{is_loss};
ghost use Rattle.txn_kv.specs.declared.request.Request.TheVariants.{ResolveLock};
ghost use Rattle.txn_kv.specs.declared.request.locks.ResolveLockRequest.{ResolveLockRequest as Sent};
ghost use Rattle.txn_lock.specs.Resolving.{IsResolvePlan};
ghost use Rattle.txn_lock.specs.Tries.{resolve_step, resolve_way, resolve_way-lawful, resolving, rest_at, resolve_level, delay_left, IsAimedFor, IsEndWith, HearsAt};
ghost use Rattle.txn_multi.specs.Task.{IsChanged};
ghost use Rattle.txn_region.specs.Clients.{IsUsable};
ghost use Rattle.txn_request.specs.Defaults.{default_resolve_lock, wrong_reply};
ghost use Rattle.txn_retry.specs.Remedy.{on_region_error};
ghost use Rattle.txn_routine.specs.Next.{allowance, IsNext, KeepsJob};

use std::alloc::Global;
use txn_kv::{
    Error, Internal, Key, LockInfo, NoMemory, RegionErr, RegionVerId, ResolveLockRequest,
    ResolveLockResponse, Result, TryClone,
};
use txn_plan::Dispatch;
use txn_region::{EncodedRequest, PdClient, RegionStore};
use txn_request::KvRequest;
use txn_request::requests::new_resolve_lock_request;
use txn_retry::{CacheChange, remedy_of};
use txn_routine::{Next, OneOf, Routine, RoutinePlan};
use txn_settle::KeySearch;

/// How often a ResolveLock is tried.
const RESOLVE_LOCK_RETRY_LIMIT: u32 = 10;

/// A look-up of the store of a key's region, or a ResolveLock to it.
pub type ResolveStep = OneOf<KeySearch<RegionStore>, Dispatch<ResolveLockRequest>>;

/// What is done next.
type Turn = std::result::Result<Next<ResolveStep, RegionVerId>, NoMemory>;

/// Settles a start in the region of a key: the region is looked up, and a ResolveLock is sent to it. It is tried ten times, as long
/// as replies have an error of their region. The answer is the region that was settled.
pub struct ResolveTries {
    key: Key,
    start_version: u64,
    /// Its locks are committed at this version, or rolled back for 0.
    commit_version: u64,
    /// How many tries were begun.
    tries: u32,
    /// The region that was asked, once it is found.
    asked: Option<RegionVerId>,
    alloc: Global,
}

impl Drop for ResolveTries {
    fn drop(self) {
        let ResolveTries {
            key,
            start_version: _,
            commit_version: _,
            tries: _,
            asked: _,
            alloc: _,
        } = self;
        drop(key);
    }
}

impl ResolveTries {
    /// Looks for the region of the key.
    fn look(&mut self) -> Turn
        requires few { self.old.tries < 10 }
        ensures job { KeepsJob resolve_way self.old self.new }
        ensures next { IsNext resolve_way resolve_step (λ h. ⊤) 1 false self.old self.new result }
        ensures tries { OnOk result (self.new.tries ≡ self.old.tries + 1) }
    {
        let key = self.key.try_clone()?;
        self.tries += 1;
        self.asked = None;
        Ok(Next::Run(OneOf::First(KeySearch::new(key))))
    }

    /// Asks the region that was found.
    fn ask<C: PdClient>(&mut self, pd: &C, store: &RegionStore) -> Turn
        ensures job { KeepsJob resolve_way self.old self.new }
        ensures next { IsNext resolve_way resolve_step (λ h. HearsAt self.old self.old.asked h (Ok (OneOf.First store.now))) (rest_at self.old.asked) false self.old self.new result }
    {
        if self.asked.is_some() {
            return Ok(Next::End(Err(wrong_reply())));
        }
        match aim(self.request(pd), store) {
            Ok((plan, region)) => {
                self.asked = Some(region);
                Ok(Next::Run(OneOf::Second(plan)))
            }
            Err(error) => Ok(Next::End(Err(error))),
        }
    }

    /// The request, with the context that the client's codec gives one like it that names nothing.
    fn request<C: PdClient>(&self, pd: &C) -> ResolveLockRequest
        ensures rest { result ≡ resolving self.now.start_version self.now.commit_version result.context }
        ensures context { (sent : Sent) × (C.Codec.encoded (C.codec pd.now) (ResolveLock default_resolve_lock) ≡ ResolveLock sent) × (result.context ≡ sent.context) }
    {
        let empty = new_resolve_lock_request(self.alloc, 0, 0);
        let encoded = EncodedRequest::new(empty, pd.get_codec());
        let mut request = new_resolve_lock_request(
            self.alloc,
            self.start_version,
            self.commit_version,
        );
        request.context = encoded.inner.context;
        request
    }

    /// Takes the reply of the region. An error at a key comes before one of the region.
    fn take<C: PdClient>(&mut self, pd: &mut C, reply: ResolveLockResponse) -> Turn
        ensures job { KeepsJob resolve_way self.old self.new }
        ensures next { IsNext resolve_way resolve_step (λ h. HearsAt self.old self.old.asked h (Ok (OneOf.Second reply))) (allowance resolve_way self.old (is_some reply.region_error)) (is_some reply.region_error) self.old self.new result }
    {
        let Some(region) = self.asked else {
            drop(reply);
            return Ok(Next::End(Err(wrong_reply())));
        };
        let mut reply = reply;
        if let Some(error) = reply.error.take() {
            return Ok(Next::End(Err(Error::key(self.alloc, error)?)));
        }
        match reply.region_error.take() {
            Some(error) => self.try_again(pd, &region, error),
            None => Ok(Next::End(Ok(region))),
        }
    }

    /// Goes on after an error of the region, where a try is left. The client is told what the error says.
    fn try_again<C: PdClient>(&mut self, pd: &mut C, region: &RegionVerId, error: RegionErr) -> Turn
        ensures job { KeepsJob resolve_way self.old self.new }
        ensures ends { 10 ≤ self.old.tries → OnOk result (IsEndWith error result) }
        ensures again { self.old.tries < 10 → IsNext resolve_way resolve_step (λ h. ⊤) 1 false self.old self.new result }
        ensures heeded { OnOk result (IsChanged C.drops C.leads region.now (on_region_error (delay_left self.old.tries) error region.now).change pd.old pd.new) }
    {
        if self.tries >= RESOLVE_LOCK_RETRY_LIMIT {
            return Ok(Next::End(Err(Error::region(self.alloc, error)?)));
        }
        let remedy = remedy_of(&error, region, 0);
        drop(error);
        change(pd, region, remedy.change)?;
        self.look()
    }
}

/// A request to the store of a region, and the region.
fn aim(
    request: ResolveLockRequest,
    store: &RegionStore,
) -> Result<(Dispatch<ResolveLockRequest>, RegionVerId)>
    ensures ok { IfOk result (λ aimed. IsAimedFor request store.now aimed.0 aimed.1) }
    ensures why { IfErr result (λ error. (is_loss error ≡ false) × (IsUsable store.now.region_with_leader → ⊥)) }
{
    let region = store.region_with_leader.ver_id()?;
    let context = store.region_with_leader.context()?;
    let mut request = request;
    request.set_context(context);
    Ok((Dispatch::new(request, Some(store.store)), region))
}

/// Why it ends with what its plan cannot have answered.
fn wrong_reply() -> Error
    ensures { result ≡ wrong_reply }
{
    Error::InternalError {
        what: Internal::WrongReply,
    }
}

/// Tells the client what an error says of the region.
fn change<C: PdClient>(
    pd: &mut C,
    region: &RegionVerId,
    change: CacheChange,
) -> std::result::Result<(), NoMemory>
    ensures { OnOk result (IsChanged C.drops C.leads region.now change pd.old pd.new) }
{
    match change {
        CacheChange::Keep => Ok(()),
        CacheChange::Invalidate => {
            pd.invalidate_region_cache(region);
            Ok(())
        }
        CacheChange::UpdateLeader(leader) => match pd.update_leader(region, leader) {
            Ok(()) => Ok(()),
            Err(_) => Err(NoMemory),
        },
    }
}

impl Routine for ResolveTries {
    type Plan = ResolveStep;

    type Result = RegionVerId;

    ghost way = { resolve_way };

    fn begin<C: PdClient>(&mut self, _pd: &mut C) -> Turn {
        self.look()
    }

    fn hear<C: PdClient>(
        &mut self,
        pd: &mut C,
        answer: Result<OneOf<RegionStore, ResolveLockResponse>>,
    ) -> Turn
        requires ready { resolve_way.ready self.old }
        ensures job { KeepsJob resolve_way self.old self.new }
        ensures next { IsNext resolve_way resolve_step (λ h. resolve_way.knows self.old h × resolve_way.hears self.old h answer) (allowance resolve_way self.old (resolve_step.fails answer)) (resolve_step.fails answer) self.old self.new result }
    {
        match answer {
            Ok(OneOf::First(store)) => self.ask(pd, &store),
            Ok(OneOf::Second(reply)) => self.take(pd, reply),
            Err(error) => Ok(Next::End(Err(error))),
        }
    }

    ghost lawful = { resolve_way-lawful };

    ghost level = { resolve_level };
}

/// The tries of a ResolveLock, as a plan.
pub type ResolveLockWithRetry = RoutinePlan<ResolveTries>;

/// A plan that settles the start of a lock in the region of its key, and is not begun: the start is committed at this version, or
/// rolled back for 0.
pub fn resolve_lock_with_retry(
    alloc: Global,
    lock: &LockInfo,
    commit_version: u64,
) -> std::result::Result<ResolveLockWithRetry, NoMemory>
    ensures { IfOk result (IsResolvePlan lock.now commit_version) }
{
    Ok(RoutinePlan::new(ResolveTries {
        key: lock.key.try_clone()?,
        start_version: lock.lock_version,
        commit_version,
        tries: 0,
        asked: None,
        alloc,
    }))
}
