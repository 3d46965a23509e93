//! What a reply says to a query.
ghost use Rattle.std.specs.Prelude.{◌≡◌};
ghost use Rattle.txn_tso.specs.Placement.{IsRead, IsRegionRead};

use txn_kv::{GetRegionResponse, PdAnswer, PdQuery, RegionWithLeader, Reply};

/// What a reply says to a query.
#[derive(Drop)]
pub enum Reading {
    Answer(PdAnswer),
    /// There is no such region.
    Nothing,
    /// It is a reply to another kind of request.
    Unlike,
}

fn read_region(told: GetRegionResponse) -> Reading
    ensures { IsRegionRead told result }
{
    let (region, leader) = told.into_parts();
    match region {
        Some(region) => Reading::Answer(PdAnswer::Region(RegionWithLeader::new(region, leader))),
        None => Reading::Nothing,
    }
}

/// Reads a reply as one to a query. A reply never answers a query for a timestamp, which an ask is answered.
pub fn read(query: &PdQuery, reply: Reply) -> Reading
    ensures { IsRead query.now reply result }
{
    match query {
        PdQuery::Region(_) => match reply.into_get_region() {
            Ok(told) => read_region(told),
            Err(_) => Reading::Unlike,
        },
        PdQuery::RegionId(_) => match reply.into_get_region_by_id() {
            Ok(told) => read_region(told),
            Err(_) => Reading::Unlike,
        },
        PdQuery::Store(_) => match reply.into_get_store() {
            Ok(told) => Reading::Answer(PdAnswer::Store(told.into_store())),
            Err(_) => Reading::Unlike,
        },
        PdQuery::Stores => match reply.into_get_all_stores() {
            Ok(told) => Reading::Answer(PdAnswer::Stores(told.into_stores().into_vec())),
            Err(_) => Reading::Unlike,
        },
        PdQuery::Time => Reading::Unlike,
        PdQuery::Safepoint(_) => match reply.into_update_gc_safe_point() {
            Ok(told) => Reading::Answer(PdAnswer::Safepoint(told.new_safe_point)),
            Err(_) => Reading::Unlike,
        },
    }
}
