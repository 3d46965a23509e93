//! What each asker of a group is answered.
ghost use Rattle.std.specs.Prelude.{◌≡◌, ◌<◌, ◌≤◌, ◌++◌, List, IfOk, length};
ghost use Rattle.txn_tso.specs.Oracle.{answer, answers, has_version};

use crate::asker::Asker;
use std::alloc::Global;
use txn_kv::{Error, Internal, NoMemory, Result, Timestamp, TsoResponse};

/// One more than the greatest physical and the greatest logical part.
const PHYSICAL_END: i64 = 70_368_744_177_664;

const LOGICAL_END: i64 = 262_144;

/// Whether the parts of a timestamp are in range.
fn has_version(timestamp: &Timestamp) -> bool
    ensures { result ≡ has_version timestamp.now }
{
    timestamp.physical >= 0
        && timestamp.physical < PHYSICAL_END
        && timestamp.logical >= 0
        && timestamp.logical < LOGICAL_END
}

/// What the asker that has `behind` others behind it in a group of `asked` is answered.
fn answer(reply: &TsoResponse, asked: u32, behind: u32) -> Result<Timestamp>
    requires { behind < asked }
    ensures { result ≡ answer reply.now asked behind }
{
    let Some(last) = reply.timestamp else {
        return Err(Error::InternalError {
            what: Internal::OracleEmpty,
        });
    };
    if !has_version(&last) {
        return Err(Error::InternalError {
            what: Internal::OracleEmpty,
        });
    }
    if reply.count != asked || last.logical < i64::from(asked) - 1 {
        return Err(Error::InternalError {
            what: Internal::OracleCount {
                asked,
                given: reply.count,
            },
        });
    }
    Ok(Timestamp {
        logical: last.logical - i64::from(behind),
        ..last
    })
}

/// What the askers of a group are answered, in their order.
pub fn answer_all(
    alloc: Global,
    reply: &TsoResponse,
    group: &[Asker],
    asked: u32,
) -> std::result::Result<Vec<(Asker, Result<Timestamp>)>, NoMemory>
    requires { asked ≡ length group.now }
    ensures { IfOk result (λ given. given.items ≡ answers reply.now asked group.now) }
{
    let mut given = Vec::new(alloc);
    let mut behind = asked;
    for asker in group {
        behind -= 1;
        given.push((*asker, answer(reply, asked, behind)))?;
    }
    Ok(given)
}
