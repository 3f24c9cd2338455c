// The reader of point records.
ghost use Rattle.std.specs.Prelude.{◌≡◌, true, ◌+◌, ◌≤◌, length, Some, is_some};
ghost use Rattle.record.specs.Record.{well_shaped};
ghost use Rattle.point.specs.Reading.{point_id_at, through_at, read_link, read_role, read_point};
ghost use Rattle.point.specs.Code.{point_id_of, through_of, link_of, Reads};
ghost use Rattle.point.specs.Said.{PointRead};

use crate::data::PointRole;
use crate::front;
use crate::info::{Point, PointId, PointInfo};
use crate::link::{AnchorLink, IndirectLink, Through};
use record::Fields;

// The id whose round, digest and author stand at a place.
#[tactic(auto, unfolding(crate::specs::Reading::point_id_at))]
pub fn point_id_at(s: &[u8], at: usize) -> PointId
    requires { at + 68 ≤ length s.now }
    ensures { point_id_of result ≡ point_id_at s.now at }
{
    PointId {
        round: parts::u32_at(s, at),
        digest: parts::id_at(s, at + 4),
        author: parts::id_at(s, at + 36),
    }
}

// The map and the peer that stand at a place. The format's byte, which is 0 or 1, becomes the enum's case here.
pub fn through_at(s: &[u8], at: usize) -> Through
    requires { at + 33 ≤ length s.now }
    ensures { through_of result ≡ through_at s.now at }
{
    let peer = parts::id_at(s, at + 1);
    match s[at] {
        0 => Through::Includes(peer),
        _ => Through::Witness(peer),
    }
}

// A link that can be read. Its kind is a byte of the format, and is read here.
#[tactic(auto, unfolding(crate::specs::Reading::read_link, crate::specs::Reading::read_through))]
fn link_of(s: &[u8]) -> AnchorLink
    requires { (34 ≤ length s.now) × (is_some (read_link s.now) ≡ true) }
    ensures { read_link s.now ≡ Some (link_of result) }
{
    let through = through_at(s, 1);
    match s[0] {
        0 => AnchorLink::Direct(through),
        _ => AnchorLink::Indirect(IndirectLink {
            to: point_id_at(s, 34),
            through,
        }),
    }
}

// A role that can be read. Its kind is a byte of the format too.
#[tactic(auto, unfolding(crate::specs::Reading::read_role))]
fn role_of(s: &[u8]) -> PointRole
    requires { is_some (read_role s.now) ≡ true }
    ensures { read_role s.now ≡ Some result }
{
    match s {
        [0, ..] => PointRole::Regular,
        [1, seq_no, is_last] => PointRole::AnchorProof {
            seq_no: *seq_no,
            is_last: *is_last == 1,
        },
        [2, ..] => PointRole::AnchorTrigger,
        _ => PointRole::Genesis,
    }
}

// What a record says that is a point: nothing of it is tested. Without the attribute each caller copies what it gets once more.
#[inline(always)]
#[tactic(auto, using(crate::proofs::Known::point_facts))]
fn info_of(fields: &Fields) -> PointInfo
    requires { is_some (read_point fields.now.rec.now) ≡ true }
    ensures { Reads fields.now.rec.now result }
{
    let id = point_id_at(fields.id(), 0);
    let payload = fields.payload();
    let proof = fields.anchor_proof();
    let trigger = fields.anchor_trigger();
    let role = role_of(fields.role());
    let times = fields.times();
    let includes_end = fields.at.witness as u16;
    let witness_end = fields.at.evidence as u16;
    let evidence_end = fields.at.anchor_proof as u16;
    PointInfo {
        id,
        payload_len: parts::u32_at(payload, 0),
        payload_bytes: parts::u32_at(payload, 4),
        anchor_proof: link_of(proof),
        anchor_trigger: link_of(trigger),
        role,
        time: parts::u64_at(times, 0),
        anchor_time: parts::u64_at(times, 8),
        includes_end,
        witness_end,
        evidence_end,
    }
}

// What a record says that was read before.
#[tactic(auto, using(crate::proofs::Known::point_facts))]
pub fn known_point(rec: &[u8]) -> Point<'_>
    requires { is_some (read_point rec.now) ≡ true }
    ensures { result.rec.now ≡ rec.now }
{
    let info = info_of(&Fields::find(rec));
    Point { rec, info }
}

// What a record of the right shape says.
pub fn read_shaped(rec: &[u8]) -> Option<Point<'_>>
    requires { well_shaped rec.now ≡ true }
    ensures { PointRead rec.now result }
{
    let fields = Fields::find(rec);
    if !front::is_point(&fields) {
        return None;
    }
    let info = info_of(&fields);
    Some(Point { rec, info })
}

// What a slice that holds one point record says.
#[tactic(auto, unfolding(crate::specs::Reading::read_point_in))]
pub fn read_point(rec: &[u8]) -> Option<Point<'_>>
    ensures { PointRead rec.now result }
{
    if record::is_well_shaped(rec) {
        read_shaped(rec)
    } else {
        None
    }
}
