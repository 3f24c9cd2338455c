// An entry of a list that can be read, without its point. Its state is asked as its byte: a DagPoint would be read with its record again.
ghost use Rattle.std.specs.Prelude.{◌≡◌, true, ◌+◌, ◌≤◌, ◌<◌, length, Some, is_some, option_map};
ghost use Rattle.point.specs.Code.{point_id_of};
ghost use Rattle.rules.specs.List.{read_entry};
ghost use Rattle.judge_mismatch.specs.Code.{head_from, code_head_of, flags_at, aim_at, id_place, id_after, end_in, entry_end};

use point::{AnchorStageRole, PointId};

// An entry without its point: what it is for, its id, which a dropped one has not, and its size.
#[derive(Clone, Copy)]
pub struct Head {
    pub aim: Option<AnchorStageRole>,
    pub id: Option<PointId>,
    pub size: usize,
}

// Where an entry's flags stand.
pub fn flags_at(s: &[u8]) -> usize
    requires { 0 < length s.now }
    ensures { result ≡ flags_at s.now }
{
    if s[0] == 19 { 4 } else { 0 }
}

// What an entry that can be read is for: the tag and the role are bytes of the format, and are read here.
fn aim(s: &[u8]) -> Option<AnchorStageRole>
    requires { 3 < length s.now }
    ensures { result ≡ aim_at s.now }
{
    match (s[0], s[3]) {
        (19, 0) => Some(AnchorStageRole::Proof),
        (19, _) => Some(AnchorStageRole::Trigger),
        _ => None,
    }
}

// The id that stands after an entry's flags, which end at a place.
#[tactic(auto, using(std::proofs::lemmas::Bool::Decides::nat_tests), unfolding(crate::specs::Code::id_after))]
fn id_after(s: &[u8], state: u8, at: usize) -> Option<PointId>
    requires { (state ≡ 5 → ⊥) → at + id_place state + 68 ≤ length s.now }
    ensures { option_map point_id_of result ≡ id_after state at s.now }
{
    if state == 5 {
        return None;
    }
    if state == 1 {
        return Some(point::point_id_at(s, at + 75));
    }
    Some(point::point_id_at(s, at + 3))
}

// Where an entry's record ends, which starts at a place: reading the entry has tested it.
#[tactic(auto, using(crate::proofs::Heads::end_facts))]
fn end_of_record(s: &[u8], at: usize) -> usize
    requires { is_some (end_in at s.now) ≡ true }
    ensures { end_in at s.now ≡ Some result }
{
    at + record::known_end(&s[at..])
}

// Where an entry ends, whose flags end at a place, which is asked to lie in the slice, as in record's `next`. The state is a byte of the
// format, and is read here.
#[tactic(auto, using(std::proofs::lemmas::Bool::Decides::nat_tests), unfolding(crate::specs::Code::entry_end))]
fn entry_end(s: &[u8], state: u8, at: usize) -> usize
    requires at_in_bounds { at ≤ length s.now }
    requires s_value { is_some (entry_end state at s.now) ≡ true }
    ensures { entry_end state at s.now ≡ Some result }
{
    match state {
        5 => at,
        3 | 4 => at + 71,
        1 => end_of_record(s, at + 72),
        _ => end_of_record(s, at),
    }
}

// An entry that can be read, without its point: no map of its record is read again. Without the attributes here and at `next`
// judging takes 1 % more instructions.
#[inline(always)]
#[tactic(auto, using(crate::proofs::Heads::head_facts))]
pub fn head_of(s: &[u8]) -> Head
    requires { is_some (read_entry s.now) ≡ true }
    ensures { Some (code_head_of result) ≡ head_from (read_entry s.now) }
{
    let flags = flags_at(s);
    let state = s[flags + 3];
    let at = flags + 7;
    Head {
        aim: aim(s),
        id: id_after(s, state, at),
        size: entry_end(s, state, at),
    }
}
