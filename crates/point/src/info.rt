// PointInfo and AnchorView: the port of info.rs. What the Rust asks of a point's maps is asked of its record.
ghost use Rattle.std.specs.Prelude.{◌≡◌, ◌&&◌, List, ℕ, ◌<◌, leb, length, get_or, option_map};
ghost use Rattle.parts.specs.Limits.{first_round, last_round};
ghost use Rattle.map.specs.Rows.{Pair, pairs_of};
ghost use Rattle.record.specs.Record.{content_of};
ghost use Rattle.parts.specs.Code.{number};
ghost use Rattle.point.specs.Point.{same_id, in_domain, is_wave_link_ok, through_map, digest_safe, through_id, prev_digest};
ghost use Rattle.point.specs.Point.{sticky_anchors, source, target_of, anchor};
ghost use Rattle.point.specs.Code.{point_id_of, through_of, link_of, link_in, point_of, view_of, sticky_of, Reads};

use crate::data::{AnchorStageRole, PointRole, StickyAnchors};
use crate::link::{AnchorLink, Through};
use parts::Id;

#[derive(Clone, Copy, PartialEq, Eq)]
pub struct PointId {
    pub round: u32,
    pub digest: Id,
    pub author: Id,
}

// What a record says, and where the fields of its maps end in it: they start one after the other.
#[derive(Clone, Copy)]
pub struct PointInfo {
    pub id: PointId,
    pub payload_len: u32,
    pub payload_bytes: u32,
    pub anchor_proof: AnchorLink,
    pub anchor_trigger: AnchorLink,
    pub role: PointRole,
    pub time: u64,
    pub anchor_time: u64,
    pub includes_end: u16,
    pub witness_end: u16,
    pub evidence_end: u16,
}

// A record that was read, with what it says: the maps of a point stay in its record.
#[derive(Clone, Copy)]
pub struct Point<'a> {
    pub rec: &'a [u8],
    pub info: PointInfo,
    pub ghost reads: { Reads rec.now info },
}

// AnchorView, which borrows in the Rust, by value.
#[derive(Clone, Copy)]
pub struct AnchorView {
    pub top: PointId,
    pub target: PointId,
    pub source: PointId,
}

// No point's id.
pub const NO_POINT: PointId = PointId {
    round: 0,
    digest: parts::NO_ID,
    author: parts::NO_ID,
};

// Whether two ids are the same, as the definitions say it: `==` compares their words, and at each caller would want the proof.
#[tactic(auto, using(crate::proofs::Ids::same_words), unfolding(crate::specs::Point::same_id))]
pub fn is_same_id(x: PointId, y: PointId) -> bool
    ensures { result ≡ same_id (point_id_of x) (point_id_of y) }
{
    x == y
}

// The id of the point that a row of a map names, at a round.
#[tactic(auto, using(crate::proofs::Maps::row_facts))]
pub fn pair_id(map: &[u8], i: usize, round: u32) -> PointId
    requires { i < length (pairs_of map.now) }
    ensures { (q : Pair) → point_id_of result ≡ record {
      round = round;
      digest = (get_or (pairs_of map.now) i q).digest;
      author = (get_or (pairs_of map.now) i q).peer;
    } }
{
    PointId {
        round,
        digest: map::digest_at(map, i),
        author: map::peer_at(map, i),
    }
}

// The last time of the domain, 2^63 - 1.
const LAST_TIME: u64 = i64::MAX as u64;

// Whether a point of this round and these times lies in the domain.
pub fn are_in_domain(round: u32, time: u64, anchor_time: u64) -> bool
    ensures { result ≡ (leb first_round round && (leb round last_round && (leb time LAST_TIME && leb anchor_time LAST_TIME))) }
{
    parts::is_round(round) && time <= LAST_TIME && anchor_time <= LAST_TIME
}

// Where the field of the includes starts: the two fields before it have one length.
pub const INCLUDES: usize = 82;

impl PointInfo {
    // Whether the point's round and times lie in the domain.
    #[tactic(auto, unfolding(crate::specs::Point::in_domain))]
    pub fn is_in_domain(self) -> bool
        ensures { (s : List ℕ) → result ≡ in_domain (point_of s self) }
    {
        are_in_domain(self.id.round, self.time, self.anchor_time)
    }

    #[tactic(auto, unfolding(crate::specs::Point::is_wave_link_ok))]
    pub fn is_wave_link_ok(self, is_leader: bool, has_prev_point: bool) -> bool
        ensures { result ≡ is_wave_link_ok is_leader has_prev_point self.id.round (link_of self.anchor_proof) self.role }
    {
        let far = self.anchor_proof.is_wave_far_enough(self.id.round);
        match self.role {
            PointRole::Regular => !(is_leader && has_prev_point && far),
            PointRole::AnchorProof { seq_no, .. } => seq_no != 0 || (is_leader && far),
            PointRole::AnchorTrigger | PointRole::Genesis => true,
        }
    }

    pub fn sticky_anchors(self) -> Option<StickyAnchors>
        ensures { option_map sticky_of result ≡ sticky_anchors self.role }
    {
        self.role.sticky_anchors()
    }

    pub fn anchor_link(self, role: AnchorStageRole) -> AnchorLink
        ensures { link_of result ≡ link_in role self }
    {
        match role {
            AnchorStageRole::Proof => self.anchor_proof,
            AnchorStageRole::Trigger => self.anchor_trigger,
        }
    }
}

// A link's target: of a direct one its source.
fn target(source: PointId, link: AnchorLink) -> PointId
    ensures { point_id_of result ≡ target_of (point_id_of source) (link_of link) }
{
    match link {
        AnchorLink::Direct(_) => source,
        AnchorLink::Indirect(indirect) => indirect.to,
    }
}

impl<'a> Point<'a> {
    // The includes, the witness and the evidence, as parts of the record: each is one call of what they share, `content_from`.
    #[tactic(auto, using(crate::proofs::Laws::read_facts))]
    pub fn includes(&self) -> &'a [u8]
        ensures { result.now ≡ content_of self.now.rec.now 2 }
    {
        record::content_from(self.rec, INCLUDES, self.info.includes_end as usize, 2)
    }

    #[tactic(auto, using(crate::proofs::Laws::read_facts))]
    pub fn witness(&self) -> &'a [u8]
        ensures { result.now ≡ content_of self.now.rec.now 3 }
    {
        record::content_from(
            self.rec,
            self.info.includes_end as usize,
            self.info.witness_end as usize,
            3,
        )
    }

    #[tactic(auto, using(crate::proofs::Laws::read_facts))]
    pub fn evidence(&self) -> &'a [u8]
        ensures { result.now ≡ content_of self.now.rec.now 4 }
    {
        record::content_from(
            self.rec,
            self.info.witness_end as usize,
            self.info.evidence_end as usize,
            4,
        )
    }

    // The digest of the author's previous point.
    #[tactic(auto, using(crate::proofs::Laws::read_facts), unfolding(crate::specs::Point::prev_digest))]
    pub fn prev_digest(&self) -> Option<Id>
        ensures { option_map number result ≡ prev_digest (point_of self.now.rec.now self.now.info) }
    {
        map::get(self.includes(), self.info.id.author)
    }

    // The map that a link goes through.
    fn map_of(&self, through: Through) -> &'a [u8]
        ensures { pairs_of result.now ≡ through_map (through_of through) (point_of self.now.rec.now self.now.info) }
    {
        match through {
            Through::Includes(_) => self.includes(),
            Through::Witness(_) => self.witness(),
        }
    }

    // The digest beside the peer that a link goes through.
    #[tactic(auto, using(crate::proofs::Laws::read_facts), unfolding(crate::specs::Point::digest_safe))]
    pub fn digest_safe(&self, through: Through) -> Option<Id>
        ensures { option_map number result ≡ digest_safe (point_of self.now.rec.now self.now.info) (through_of through) }
    {
        map::get(self.map_of(through), through.peer())
    }

    // The point that a link goes through.
    #[tactic(auto, unfolding(crate::specs::Point::through_id))]
    pub fn through_id(&self, through: Through) -> Option<PointId>
        ensures { option_map point_id_of result ≡ through_id (point_of self.now.rec.now self.now.info) (through_of through) }
    {
        let digest = self.digest_safe(through)?;
        Some(PointId {
            round: through.round(self.info.id.round),
            digest,
            author: through.peer(),
        })
    }

    // The source of a link.
    #[tactic(auto, using(parts::proofs::Laws::number_zero), unfolding(crate::specs::Point::source))]
    fn source(&self, role: AnchorStageRole) -> PointId
        ensures { point_id_of result ≡ source role (point_of self.now.rec.now self.now.info) }
    {
        let through = self.info.anchor_link(role).through();
        PointId {
            round: through.round(self.info.id.round),
            digest: self.digest_safe(through).unwrap_or(parts::NO_ID),
            author: through.peer(),
        }
    }

    // The view of an anchor link: where it goes through, where it leads, and the point itself where it has the role.
    #[tactic(auto, unfolding(crate::specs::Point::anchor))]
    pub fn anchor(&self, role: AnchorStageRole) -> AnchorView
        ensures { view_of result ≡ anchor role (point_of self.now.rec.now self.now.info) }
    {
        let source = self.source(role);
        let target = target(source, self.info.anchor_link(role));
        let has_role = self.info.role.is_anchor_stage(role);
        let top = if has_role { self.info.id } else { target };
        AnchorView {
            top,
            target,
            source,
        }
    }
}
