// The few numbers of a dependency that decide of most whether they give a reason. No map is searched for them.
ghost use Rattle.std.specs.Prelude.{◌≡◌, ◌≤◌, length, Some};
ghost use Rattle.base.specs.Base.{pick};
ghost use Rattle.point.specs.Point.{PointInfo, AnchorLink, is_anchor_proof, is_anchor_trigger, target_round_of};
ghost use Rattle.point.specs.Reading.{read_link, read_role, read_point};
ghost use Rattle.point.specs.declared.data.PointRole.{PointRole};
ghost use Rattle.judge_valid.specs.Code.{BriefOf};

use record::Fields;

// Of digest and author the first eight bytes, of both tops the round.
#[derive(Clone, Copy)]
pub struct Brief {
    pub round: u32,
    pub digest: u64,
    pub author: u64,
    pub proof_top_round: u32,
    pub trigger_top_round: u32,
    pub time: u64,
}

// Whether the content of a role's field is a proof's. By the role's bytes, which a PointRole would be read from first.
fn is_proof(role: &[u8]) -> bool
    requires { 1 ≤ length role.now }
    ensures { (g : PointRole) → read_role role.now ≡ Some g → result ≡ is_anchor_proof g }
{
    role.len() == 3 || role[0] == 3
}

// Whether it is a trigger's, by the same bytes.
fn is_trigger(role: &[u8]) -> bool
    requires { 1 ≤ length role.now }
    ensures { (g : PointRole) → read_role role.now ≡ Some g → result ≡ is_anchor_trigger g }
{
    if role.len() == 3 {
        return 0 < role[1];
    }
    1 < role[0]
}

// The round of a point's top: its own where it has the role, else that of the target of the link with this content.
fn top_round(has_role: bool, round: u32, link: &[u8]) -> u32
    requires { 34 ≤ length link.now }
    ensures { (l : AnchorLink) → read_link link.now ≡ Some l → result ≡ pick has_role round (target_round_of round l) }
{
    if has_role {
        return round;
    }
    if 102 <= link.len() {
        return parts::u32_at(link, 34);
    }
    point::through_at(link, 1).round(round)
}

#[tactic(auto, using(point::proofs::Laws::shape_facts))]
pub fn brief_of(fields: &Fields) -> Brief
    ensures { (q : PointInfo) → read_point fields.now.rec.now ≡ Some q → BriefOf q result }
{
    let id = fields.id();
    let role = fields.role();
    let round = parts::u32_at(id, 0);
    Brief {
        round,
        digest: parts::big64_at(id, 4),
        author: parts::big64_at(id, 36),
        proof_top_round: top_round(is_proof(role), round, fields.anchor_proof()),
        trigger_top_round: top_round(is_trigger(role), round, fields.anchor_trigger()),
        time: parts::u64_at(fields.times(), 0),
    }
}
