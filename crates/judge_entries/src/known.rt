// An entry that is known to stand at the front of a slice: nothing of it is tested again.
ghost use Rattle.std.specs.Prelude.{◌≡◌, true, ◌≤◌, ◌<◌, length, Some, is_some};
ghost use Rattle.rules.specs.List.{record_front, read_state, entry_at, read_entry};
ghost use Rattle.judge_entries.specs.Entry.{record_front_of, stated_of, listed_of};

use crate::entry::{DagPoint, Entry, Listed, Stated};
use point::{AnchorStageRole, Point};

#[inline(always)]
#[tactic(auto, using(crate::proofs::KnownLaws::record_facts))]
fn known_record(s: &[u8]) -> Point<'_>
    requires { is_some (record_front s.now) ≡ true }
    ensures { record_front s.now ≡ Some (record_front_of result) }
{
    point::known_point(&s[..record::known_end(s)])
}

#[tactic(auto, using(crate::proofs::KnownLaws::valid_facts))]
fn known_valid(reason: u8, s: &[u8]) -> Stated<'_>
    requires { is_some (read_state 0 reason s.now) ≡ true }
    ensures { read_state 0 reason s.now ≡ Some (stated_of result) }
{
    let point = known_record(s);
    Stated {
        rec: point.rec,
        state: DagPoint::Valid(point.info),
        size: point.rec.len(),
    }
}

#[tactic(auto, using(crate::proofs::KnownLaws::trans_facts))]
fn known_trans_invalid(reason: u8, s: &[u8]) -> Stated<'_>
    requires { is_some (read_state 1 reason s.now) ≡ true }
    ensures { read_state 1 reason s.now ≡ Some (stated_of result) }
{
    let point = known_record(&s[72..]);
    Stated {
        rec: point.rec,
        state: DagPoint::TransInvalid {
            info: point.info,
            root: point::point_id_at(s, 3),
            root_reason: s[71],
        },
        size: 72 + point.rec.len(),
    }
}

#[tactic(auto, using(crate::proofs::KnownLaws::invalid_facts))]
fn known_invalid(reason: u8, s: &[u8]) -> Stated<'_>
    requires { is_some (read_state 2 reason s.now) ≡ true }
    ensures { read_state 2 reason s.now ≡ Some (stated_of result) }
{
    let point = known_record(s);
    Stated {
        rec: point.rec,
        state: DagPoint::Invalid {
            info: point.info,
            reason,
        },
        size: point.rec.len(),
    }
}

#[tactic(auto, using(crate::proofs::KnownLaws::ill_formed_facts))]
fn known_ill_formed(reason: u8, s: &[u8]) -> Stated<'_>
    requires { is_some (read_state 3 reason s.now) ≡ true }
    ensures { read_state 3 reason s.now ≡ Some (stated_of result) }
{
    Stated {
        rec: &[],
        state: DagPoint::IllFormed {
            id: point::point_id_at(s, 3),
            reason,
        },
        size: 71,
    }
}

#[tactic(auto, using(crate::proofs::KnownLaws::not_found_facts))]
fn known_not_found(reason: u8, s: &[u8]) -> Stated<'_>
    requires { is_some (read_state 4 reason s.now) ≡ true }
    ensures { read_state 4 reason s.now ≡ Some (stated_of result) }
{
    Stated {
        rec: &[],
        state: DagPoint::NotFound(point::point_id_at(s, 3)),
        size: 71,
    }
}

#[tactic(auto, using(crate::proofs::KnownLaws::dropped_is))]
fn known_dropped(state: u8, reason: u8, s: &[u8]) -> Stated<'_>
    requires state { 4 < state }
    requires reads { is_some (read_state state reason s.now) ≡ true }
    ensures { read_state state reason s.now ≡ Some (stated_of result) }
{
    Stated {
        rec: &[],
        state: DagPoint::Dropped,
        size: 0,
    }
}

// What stands after the flags of an entry, by its state and reason number, as `read_state`.
fn known_state(state: u8, reason: u8, s: &[u8]) -> Stated<'_>
    requires { is_some (read_state state reason s.now) ≡ true }
    ensures { read_state state reason s.now ≡ Some (stated_of result) }
{
    match state {
        0 => known_valid(reason, s),
        1 => known_trans_invalid(reason, s),
        2 => known_invalid(reason, s),
        3 => known_ill_formed(reason, s),
        4 => known_not_found(reason, s),
        _ => known_dropped(state, reason, s),
    }
}

// An entry from its flags on, as `entry_at`.
#[inline(always)]
#[tactic(auto, using(crate::proofs::KnownLaws::entry_facts))]
fn known_at(aim: Option<AnchorStageRole>, front: usize, s: &[u8]) -> Listed<'_>
    requires few { front ≤ 4 }
    requires reads { is_some (entry_at aim front s.now) ≡ true }
    ensures { entry_at aim front s.now ≡ Some (listed_of result) }
{
    let x = known_state(s[3], s[6], &s[7..]);
    Listed {
        aim,
        entry: Entry {
            rec: x.rec,
            state: x.state,
            certified: s[4] == 1,
            first_valid: s[5] == 1,
        },
        size: front + 7 + x.size,
    }
}

// The entry at the front of a list, as `read_entry`.
#[tactic(auto, using(crate::proofs::KnownLaws::aimed_facts))]
pub fn known_entry(s: &[u8]) -> Listed<'_>
    requires { is_some (read_entry s.now) ≡ true }
    ensures same { read_entry s.now ≡ Some (listed_of result) }
    ensures sized { (0 < result.size) × (result.size ≤ length s.now) }
{
    match (s[0], s[3]) {
        (19, 0) => known_at(Some(AnchorStageRole::Proof), 4, &s[4..]),
        (19, _) => known_at(Some(AnchorStageRole::Trigger), 4, &s[4..]),
        _ => known_at(None, 0, s),
    }
}
