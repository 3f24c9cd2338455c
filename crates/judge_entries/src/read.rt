// Reading an entry at the front of a slice.
ghost use Rattle.std.specs.Prelude.{◌≡◌, ◌-◌, ◌≤◌, List, ℕ, length, drop, is_some, option_map};
ghost use Rattle.std.specs.Option.{IfSome};
ghost use Rattle.parts.specs.Code.{number};
ghost use Rattle.point.specs.Code.{point_id_of, link_of};
ghost use Rattle.point.specs.Said.{said};
ghost use Rattle.reasons.specs.Invalid.{dag_round};
ghost use Rattle.rules.specs.DagPoint.{is_by};
ghost use Rattle.rules.specs.List.{is_named, is_listable, record_front, is_root, read_state, entry_at, read_entry};
ghost use Rattle.judge_entries.specs.Entry.{record_front_of, stated_of, listed_of, Sized, EndsWith};

use crate::entry::{DagPoint, Entry, Listed, Stated};
use point::{AnchorLink, AnchorStageRole, Point, PointId};
use record::Row;

const STATE: Row = Row {
    tag: 16,
    least: 4,
    greatest: 4,
};

const ID: Row = Row {
    tag: 17,
    least: 68,
    greatest: 68,
};

const ROOT: Row = Row {
    tag: 18,
    least: 69,
    greatest: 69,
};

const TARGET: Row = Row {
    tag: 19,
    least: 1,
    greatest: 1,
};

// Whether an id is of the author's point at the round before.
pub fn is_own_before(own: PointId, id: PointId) -> bool
    ensures { result ≡ is_by (own.round - 1) (number own.author) (point_id_of id) }
{
    id.round == parts::rounds_back(own.round, 1) && parts::same(id.author, own.author)
}

// Whether a link, if it is direct, names a peer of its map.
#[tactic(auto, unfolding(rules::specs::List::is_named))]
fn is_named(point: &Point, link: AnchorLink) -> bool
    ensures { result ≡ is_named (said point.now) (link_of link) }
{
    match link {
        AnchorLink::Direct(through) => point.digest_safe(through).is_some(),
        AnchorLink::Indirect(_) => true,
    }
}

// Whether a point may be listed: it lies in the domain, and its direct links name peers.
#[tactic(auto, unfolding(rules::specs::List::is_listable))]
pub fn is_listable(point: &Point) -> bool
    ensures { result ≡ is_listable (said point.now) }
{
    point.info.is_in_domain()
        && is_named(point, point.info.anchor_proof)
        && is_named(point, point.info.anchor_trigger)
}

// The listed point whose record stands at the front of a slice. Without the attribute `?` copies the point once more, and judging 13 peers
// takes 17 % more instructions. In two walks over the fields: with the one of `read_shape` an offer to a book of 100 entries takes 4 % more,
// since the compiler no longer puts that walk into its other caller.
#[inline(always)]
fn read_record(s: &[u8]) -> Option<Point<'_>>
    ensures same { option_map record_front_of result ≡ record_front s.now }
    ensures placed { IfSome result (λ p. EndsWith s.now (length p.rec.now) p.rec.now) }
{
    let n = record::record_end(s)?;
    let point = point::read_shaped(&s[..n])?;
    if !is_listable(&point) {
        return None;
    }
    Some(point)
}

// Whether a number counts a reason of InvalidReason.
pub fn is_reason(number: u8) -> bool
    ensures { result ≡ is_some (dag_round number) }
{
    reasons::dag_round(number).is_some()
}

// Whether a root cause in the domain stands at the front of a slice. The two tests that book_layout's `is_root` has too are each one call,
// of bytes that each format places by itself: a function of both would say no more.
#[tactic(auto, unfolding(rules::specs::List::is_root))]
fn is_root(s: &[u8]) -> bool
    ensures { result ≡ is_root s.now }
{
    record::field_ok(s, 0, ROOT) && parts::is_round(parts::u32_at(s, 3)) && is_reason(s[71])
}

#[tactic(auto, unfolding(rules::specs::List::read_state_in), using(rules::proofs::Fronts::root_length))]
fn read_trans_invalid(s: &[u8]) -> Option<Stated<'_>>
    ensures same { option_map stated_of result ≡ read_state 1 0 s.now }
    ensures placed { IfSome result (λ x. EndsWith s.now x.size x.rec.now) }
{
    if !is_root(s) {
        return None;
    }
    let point = read_record(&s[72..])?;
    Some(Stated {
        rec: point.rec,
        state: DagPoint::TransInvalid {
            info: point.info,
            root: point::point_id_at(s, 3),
            root_reason: s[71],
        },
        size: 72 + point.rec.len(),
    })
}

#[tactic(auto, unfolding(rules::specs::List::read_state_in))]
fn read_valid(s: &[u8]) -> Option<Stated<'_>>
    ensures same { option_map stated_of result ≡ read_state 0 0 s.now }
    ensures placed { IfSome result (λ x. EndsWith s.now x.size x.rec.now) }
{
    let point = read_record(s)?;
    Some(Stated {
        rec: point.rec,
        state: DagPoint::Valid(point.info),
        size: point.rec.len(),
    })
}

#[tactic(auto, unfolding(rules::specs::List::read_state_in))]
fn read_invalid(reason: u8, s: &[u8]) -> Option<Stated<'_>>
    ensures same { option_map stated_of result ≡ read_state 2 reason s.now }
    ensures placed { IfSome result (λ x. EndsWith s.now x.size x.rec.now) }
{
    if !is_reason(reason) {
        return None;
    }
    let point = read_record(s)?;
    Some(Stated {
        rec: point.rec,
        state: DagPoint::Invalid {
            info: point.info,
            reason,
        },
        size: point.rec.len(),
    })
}

#[tactic(auto, unfolding(rules::specs::List::read_state_in))]
fn read_ill_formed(reason: u8, s: &[u8]) -> Option<Stated<'_>>
    ensures same { option_map stated_of result ≡ read_state 3 reason s.now }
    ensures placed { IfSome result (λ x. EndsWith s.now x.size x.rec.now) }
{
    if !reasons::is_ill_formed(reason) || !record::field_ok(s, 0, ID) {
        return None;
    }
    Some(Stated {
        rec: &[],
        state: DagPoint::IllFormed {
            id: point::point_id_at(s, 3),
            reason,
        },
        size: 71,
    })
}

#[tactic(auto, unfolding(rules::specs::List::read_state_in))]
fn read_not_found(s: &[u8]) -> Option<Stated<'_>>
    ensures same { option_map stated_of result ≡ read_state 4 0 s.now }
    ensures placed { IfSome result (λ x. EndsWith s.now x.size x.rec.now) }
{
    if !record::field_ok(s, 0, ID) {
        return None;
    }
    Some(Stated {
        rec: &[],
        state: DagPoint::NotFound(point::point_id_at(s, 3)),
        size: 71,
    })
}

// What stands after the flags of an entry, by its state and reason number. The states are numbers of the format, which become a DagPoint
// here. State and reason are matched at once, since with a guard `_ if reason != 0` judging 13 peers takes 24 % more.
#[tactic(auto, unfolding(rules::specs::List::read_state_in), using(std::proofs::lemmas::Bool::Decides::nat_tests))]
fn read_state(state: u8, reason: u8, s: &[u8]) -> Option<Stated<'_>>
    ensures same { option_map stated_of result ≡ read_state state reason s.now }
    ensures placed { IfSome result (λ x. EndsWith s.now x.size x.rec.now) }
{
    match (state, reason) {
        (2, _) => read_invalid(reason, s),
        (3, _) => read_ill_formed(reason, s),
        (0, 0) => read_valid(s),
        (1, 0) => read_trans_invalid(s),
        (4, 0) => read_not_found(s),
        (5, 0) => Some(Stated {
            rec: &[],
            state: DagPoint::Dropped,
            size: 0,
        }),
        _ => None,
    }
}

// An entry from its flags on, before which `front` bytes stand.
#[tactic(auto, unfolding(rules::specs::List::entry_at_in), using(crate::proofs::Laws::flags_long))]
fn entry_at(aim: Option<AnchorStageRole>, front: usize, s: &[u8]) -> Option<Listed<'_>>
    requires { front ≤ 4 }
    ensures same { option_map listed_of result ≡ entry_at aim front s.now }
    ensures placed { (t : List ℕ) → drop front t ≡ s.now → IfSome result (λ x. EndsWith t x.size x.entry.rec.now) }
{
    if !record::field_ok(s, 0, STATE) || 1 < s[4] || 1 < s[5] {
        return None;
    }
    let x = read_state(s[3], s[6], &s[7..])?;
    Some(Listed {
        aim,
        entry: Entry {
            rec: x.rec,
            state: x.state,
            certified: s[4] == 1,
            first_valid: s[5] == 1,
        },
        size: front + 7 + x.size,
    })
}

// The entry at the front of a list. The roles of tag 19 are numbers of the format, which become an AnchorStageRole here.
#[tactic(auto, unfolding(rules::specs::List::read_entry_in), using(crate::proofs::Laws::entry_facts))]
pub fn read_entry(s: &[u8]) -> Option<Listed<'_>>
    ensures same { option_map listed_of result ≡ read_entry s.now }
    ensures sized { Sized s.now result }
    ensures placed { IfSome result (λ x. EndsWith s.now x.size x.entry.rec.now) }
{
    if s.is_empty() {
        return None;
    }
    if s[0] != 19 {
        return entry_at(None, 0, s);
    }
    if !record::field_ok(s, 0, TARGET) {
        return None;
    }
    match s[3] {
        0 => entry_at(Some(AnchorStageRole::Proof), 4, &s[4..]),
        1 => entry_at(Some(AnchorStageRole::Trigger), 4, &s[4..]),
        _ => None,
    }
}
