ghost use Rattle.std.specs.Prelude.{◌≡◌, List, [], IfOk, OnOk, None, Option};
ghost use Rattle.std.proofs.Common.{ap, sym, ◌∙◌};
ghost use Rattle.txn_kv.specs.declared.message.RegionErr.{RegionErr};
ghost use Rattle.txn_merge.specs.Firsts.{no_region_in, region_in, without_region_in};

use crate::response_with_shard::ResponseWithShard;
use txn_kv::{
    BatchGetResponse, BatchRollbackResponse, CheckSecondaryLocksResponse, CheckTxnStatusResponse,
    CleanupResponse, CommitResponse, Error, GetResponse, PessimisticLockResponse,
    PessimisticRollbackResponse, PrewriteResponse, RegionErr, ResolveLockResponse,
    ScanLockResponse, ScanResponse, TxnHeartBeatResponse, UnsafeDestroyRangeResponse,
};

/// What a reply, or an answer, says of an error of its region.
pub trait HasRegionError: Sized {
    ghost region_error_in: { Self → Option RegionErr };

    ghost without_region_error: { Self → Self };

    /// Takes the error out. Takes no memory.
    fn region_error(&mut self) -> Option<RegionErr>
        ensures found { result ≡ region_error_in self.old }
        ensures left { self.new ≡ without_region_error self.old };

    /// Where there is no error, all is left.
    ghost no_region_error: { (s : Self) → region_error_in s ≡ None → without_region_error s ≡ s };
}

impl HasRegionError for GetResponse {
    ghost region_error_in = { λ s. s.region_error };

    ghost without_region_error = { λ s. record s { region_error = None } };

    ghost no_region_error = { λ s none. ap (λ error. record s { region_error = error }) (sym none) };

    fn region_error(&mut self) -> Option<RegionErr> {
        self.region_error.take()
    }
}

impl HasRegionError for BatchGetResponse {
    ghost region_error_in = { λ s. s.region_error };

    ghost without_region_error = { λ s. record s { region_error = None } };

    ghost no_region_error = { λ s none. ap (λ error. record s { region_error = error }) (sym none) };

    fn region_error(&mut self) -> Option<RegionErr> {
        self.region_error.take()
    }
}

impl HasRegionError for ScanResponse {
    ghost region_error_in = { λ s. s.region_error };

    ghost without_region_error = { λ s. record s { region_error = None } };

    ghost no_region_error = { λ s none. ap (λ error. record s { region_error = error }) (sym none) };

    fn region_error(&mut self) -> Option<RegionErr> {
        self.region_error.take()
    }
}

impl HasRegionError for PrewriteResponse {
    ghost region_error_in = { λ s. s.region_error };

    ghost without_region_error = { λ s. record s { region_error = None } };

    ghost no_region_error = { λ s none. ap (λ error. record s { region_error = error }) (sym none) };

    fn region_error(&mut self) -> Option<RegionErr> {
        self.region_error.take()
    }
}

impl HasRegionError for CommitResponse {
    ghost region_error_in = { λ s. s.region_error };

    ghost without_region_error = { λ s. record s { region_error = None } };

    ghost no_region_error = { λ s none. ap (λ error. record s { region_error = error }) (sym none) };

    fn region_error(&mut self) -> Option<RegionErr> {
        self.region_error.take()
    }
}

impl HasRegionError for CleanupResponse {
    ghost region_error_in = { λ s. s.region_error };

    ghost without_region_error = { λ s. record s { region_error = None } };

    ghost no_region_error = { λ s none. ap (λ error. record s { region_error = error }) (sym none) };

    fn region_error(&mut self) -> Option<RegionErr> {
        self.region_error.take()
    }
}

impl HasRegionError for BatchRollbackResponse {
    ghost region_error_in = { λ s. s.region_error };

    ghost without_region_error = { λ s. record s { region_error = None } };

    ghost no_region_error = { λ s none. ap (λ error. record s { region_error = error }) (sym none) };

    fn region_error(&mut self) -> Option<RegionErr> {
        self.region_error.take()
    }
}

impl HasRegionError for PessimisticRollbackResponse {
    ghost region_error_in = { λ s. s.region_error };

    ghost without_region_error = { λ s. record s { region_error = None } };

    ghost no_region_error = { λ s none. ap (λ error. record s { region_error = error }) (sym none) };

    fn region_error(&mut self) -> Option<RegionErr> {
        self.region_error.take()
    }
}

impl HasRegionError for PessimisticLockResponse {
    ghost region_error_in = { λ s. s.region_error };

    ghost without_region_error = { λ s. record s { region_error = None } };

    ghost no_region_error = { λ s none. ap (λ error. record s { region_error = error }) (sym none) };

    fn region_error(&mut self) -> Option<RegionErr> {
        self.region_error.take()
    }
}

impl HasRegionError for ResolveLockResponse {
    ghost region_error_in = { λ s. s.region_error };

    ghost without_region_error = { λ s. record s { region_error = None } };

    ghost no_region_error = { λ s none. ap (λ error. record s { region_error = error }) (sym none) };

    fn region_error(&mut self) -> Option<RegionErr> {
        self.region_error.take()
    }
}

impl HasRegionError for ScanLockResponse {
    ghost region_error_in = { λ s. s.region_error };

    ghost without_region_error = { λ s. record s { region_error = None } };

    ghost no_region_error = { λ s none. ap (λ error. record s { region_error = error }) (sym none) };

    fn region_error(&mut self) -> Option<RegionErr> {
        self.region_error.take()
    }
}

impl HasRegionError for TxnHeartBeatResponse {
    ghost region_error_in = { λ s. s.region_error };

    ghost without_region_error = { λ s. record s { region_error = None } };

    ghost no_region_error = { λ s none. ap (λ error. record s { region_error = error }) (sym none) };

    fn region_error(&mut self) -> Option<RegionErr> {
        self.region_error.take()
    }
}

impl HasRegionError for CheckTxnStatusResponse {
    ghost region_error_in = { λ s. s.region_error };

    ghost without_region_error = { λ s. record s { region_error = None } };

    ghost no_region_error = { λ s none. ap (λ error. record s { region_error = error }) (sym none) };

    fn region_error(&mut self) -> Option<RegionErr> {
        self.region_error.take()
    }
}

impl HasRegionError for CheckSecondaryLocksResponse {
    ghost region_error_in = { λ s. s.region_error };

    ghost without_region_error = { λ s. record s { region_error = None } };

    ghost no_region_error = { λ s none. ap (λ error. record s { region_error = error }) (sym none) };

    fn region_error(&mut self) -> Option<RegionErr> {
        self.region_error.take()
    }
}

impl HasRegionError for UnsafeDestroyRangeResponse {
    ghost region_error_in = { λ s. s.region_error };

    ghost without_region_error = { λ s. record s { region_error = None } };

    ghost no_region_error = { λ s none. ap (λ error. record s { region_error = error }) (sym none) };

    fn region_error(&mut self) -> Option<RegionErr> {
        self.region_error.take()
    }
}

impl<Resp: HasRegionError, Shard> HasRegionError for ResponseWithShard<Resp, Shard> {
    ghost region_error_in = { λ s. Resp.region_error_in s.0 };

    ghost without_region_error = { λ s. record s { 0 = Resp.without_region_error s.0 } };

    ghost no_region_error = { λ s none. ap (λ response. record s { 0 = response }) (Resp.no_region_error s.0 none) };

    fn region_error(&mut self) -> Option<RegionErr> {
        self.0.region_error()
    }
}

/// An Err has none.
impl<T: HasRegionError> HasRegionError for Result<T, Error> {
    ghost region_error_in = { region_in T.region_error_in };

    ghost without_region_error = { without_region_in T.without_region_error };

    ghost no_region_error = { no_region_in T.region_error_in T.without_region_error T.no_region_error };

    fn region_error(&mut self) -> Option<RegionErr> {
        match self {
            Ok(value) => value.region_error(),
            Err(_) => None,
        }
    }
}
