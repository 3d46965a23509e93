ghost use Rattle.std.specs.Prelude.{◌≡◌, ◌≢◌, IfOk, OnErr};
ghost use Rattle.txn_history.specs.Around.{IsRead};
ghost use Rattle.txn_history.specs.Meaning.{Counts, Goes, Tells};
ghost use Rattle.txn_history.specs.Posted.{HasNumbers};
ghost use Rattle.txn_history.specs.Turn.{turn_of, IfEnds, IfKept};
ghost use Rattle.txn_kv.specs.declared.request.Request.{Request as Asked};
ghost use Rattle.txn_plan.specs.LookUp.{looked_up};
ghost use Rattle.txn_tso.specs.declared.stage.Stage.TheVariants.{Stopped};
ghost use Rattle.txn_plan.specs.Timing.{HasBegun, HasVersionIfDone, IsAnswerOf, IsToldTo, ReadsTime, time_asked};
ghost use Rattle.txn_history.specs.Arrivals.{MayArrive, awaited_as, locked_told, tells_error, tells_failure, told_by, weight_told};

use txn_kv::{Arrival, Error, Internal, NoMemory, Outbox, PdAnswer, PdQuery, Progress, Timestamp};
use txn_region::PdClient;
use txn_tso::PdCall;

/// Asks the oracle of the client for a timestamp, as often as any query to the placement driver is tried. One that gave up for
/// want of memory is not to be told of anything more.
pub struct TimestampCall {
    call: PdCall,
}

impl Drop for TimestampCall {
    fn drop(self) {
        let TimestampCall { call } = self;
        drop(call);
    }
}

impl TimestampCall {
    /// A call that has asked.
    pub fn begin<C: PdClient>(
        pd: &mut C,
        now: u64,
        out: &mut Outbox,
    ) -> Result<TimestampCall, NoMemory>
        requires numbers { HasNumbers out.old }
        ensures ok { IfOk result (λ call. HasBegun call out.old out.new) }
        ensures err { OnErr result (out.new ≡ out.old) }
        ensures numbers { HasNumbers out.new }
    {
        let mut call = PdCall::new(PdQuery::Time);
        let progress = call.start(pd.retry_client(), now, out)?;
        ignore(progress);
        Ok(TimestampCall { call })
    }

    /// It is told of something.
    pub fn tell<C: PdClient>(
        &mut self,
        arrival: Arrival,
        pd: &mut C,
        now: u64,
        out: &mut Outbox,
    ) -> Result<Progress<Timestamp>, NoMemory>
        requires ready { time_asked.ready self.old }
        requires arrives { MayArrive arrival }
        requires numbers { HasNumbers out.old }
        ensures tells { (r : Asked) → Tells time_asked (told_by arrival out.old r) self.old self.new out.old out.new (turn_of result) }
        ensures goes { Goes time_asked.phase (time_asked.waits self.old (awaited_as arrival)) self.old self.new out.old out.new pd.old pd.new (turn_of result) }
        ensures counts { Counts time_asked (tells_error arrival) (tells_failure arrival) (weight_told arrival) (locked_told arrival) self.old self.new out.old out.new (turn_of result) }
        ensures answer { IfEnds (turn_of result) (IsAnswerOf self.old arrival) }
        ensures version { IfOk result HasVersionIfDone }
        ensures ready { IfKept (turn_of result) (time_asked.ready self.new) }
        ensures numbers { HasNumbers out.new }
    {
        let turn = self.pass(arrival, pd, now, out);
        read(turn)
    }

    fn pass<C: PdClient>(
        &mut self,
        arrival: Arrival,
        pd: &mut C,
        now: u64,
        out: &mut Outbox,
    ) -> Result<Progress<PdAnswer>, NoMemory>
        requires arrives { MayArrive arrival }
        requires numbers { HasNumbers out.old }
        ensures tells { (r : Asked) → Tells looked_up (told_by arrival out.old r) self.old.call self.new.call out.old out.new (turn_of result) }
        ensures goes { self.old.call.stage ≢ Stopped → Goes looked_up.phase (looked_up.waits self.old.call (awaited_as arrival)) self.old.call self.new.call out.old out.new pd.old pd.new (turn_of result) }
        ensures counts { Counts looked_up (tells_error arrival) (tells_failure arrival) (weight_told arrival) (locked_told arrival) self.old.call self.new.call out.old out.new (turn_of result) }
        ensures job { self.new.call.query ≡ self.old.call.query }
        ensures answer { IfEnds (turn_of result) (IsToldTo self.old arrival) }
        ensures numbers { HasNumbers out.new }
    {
        match arrival {
            Arrival::Reply { number, reply } => {
                self.call
                    .take_reply(pd.retry_client(), now, number, reply, out)
            }
            Arrival::Lost { number } => self.call.lost(pd.retry_client(), now, number, out),
            Arrival::Slept { number } => self.call.slept(pd.retry_client(), now, number, out),
            Arrival::Time { ask, answer } => {
                self.call
                    .take_time(pd.retry_client(), now, ask, answer, out)
            }
        }
    }
}

/// The timestamp that was answered.
fn read(turn: Result<Progress<PdAnswer>, NoMemory>) -> Result<Progress<Timestamp>, NoMemory>
    ensures { IsRead ReadsTime (turn_of turn) (turn_of result) }
{
    match turn? {
        Progress::Waiting => Ok(Progress::Waiting),
        Progress::Done(answer) => Ok(Progress::Done(time_of(answer))),
    }
}

fn time_of(answer: txn_kv::Result<PdAnswer>) -> txn_kv::Result<Timestamp>
    ensures { ReadsTime answer result }
{
    match &answer? {
        PdAnswer::Time(timestamp) => Ok(*timestamp),
        _ => Err(Error::InternalError {
            what: Internal::WrongReply,
        }),
    }
}

fn ignore(_progress: Progress<PdAnswer>) {}
