ghost use Rattle.std.specs.Prelude.{◌≡◌, IfErr, IfOk};
ghost use Rattle.txn_kv.specs.declared.errors.Error.TheVariants.{OutOfMemory};
ghost use Rattle.txn_region.specs.Clients.{IsFoundAt, IsPlaceQuery, MatchLook};

use txn_kv::{Key, Look, RegionWithLeader, Result};
use txn_region::{PdClient, RegionStore};

/// What is looked for at a key.
pub trait Place: Sized + Drop {
    ghost use Rattle.txn_history.specs.Plan.{Key};

    // It is the place of the key.
    ghost is_of: { Key → Self → Type 0 };

    /// The place, as far as the client knows it, or the query that has to be asked first.
    fn look<C: PdClient>(pd: &mut C, key: &Key) -> Result<Look<Self>>
        ensures look { IfOk result (λ look. MatchLook look (is_of key.now) (λ q. IsPlaceQuery q × C.asks pd.new q) ⊥) }
        ensures why { IfErr result (λ error. error ≡ OutOfMemory) }
        ensures changed { C.looked pd.old pd.new };
}

/// The region of the key.
impl Place for RegionWithLeader {
    ghost is_of = { IsFoundAt };

    fn look<C: PdClient>(pd: &mut C, key: &Key) -> Result<Look<RegionWithLeader>> {
        pd.region_for_key(key)
    }
}

/// The region of the key, and the store that requests for it go to.
impl Place for RegionStore {
    ghost is_of = { λ key found. IsFoundAt key found.region_with_leader };

    fn look<C: PdClient>(pd: &mut C, key: &Key) -> Result<Look<RegionStore>> {
        pd.store_for_key(key)
    }
}
