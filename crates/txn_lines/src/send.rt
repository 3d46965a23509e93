//! Each type of this crate can move between threads.

use crate::act::Act;
use crate::begin_options::BeginOptions;
use crate::client_act::ClientAct;
use crate::deed::Deed;
use crate::happening::Happening;
use crate::line::Line;
use crate::line_kinds::{LineKind, LineKinds};
use crate::script::{BadAt, Script, Why};
use txn_kv::send::can_move;

/// The types of this crate do.
pub fn scripts_can_move() {
    can_move::<Act>();
    can_move::<BeginOptions>();
    can_move::<ClientAct>();
    can_move::<Deed>();
    can_move::<Happening>();
    can_move::<Line>();
    can_move::<LineKind>();
    can_move::<LineKinds>();
    can_move::<Script>();
    can_move::<BadAt>();
    can_move::<Why>();
}
