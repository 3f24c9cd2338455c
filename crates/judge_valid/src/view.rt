// What judging asks of the point and of a dependency.
ghost use Rattle.std.specs.Prelude.{◌≡◌};
ghost use Rattle.point.specs.Point.{top};
ghost use Rattle.point.specs.Code.{point_id_of};
ghost use Rattle.point.specs.Said.{said};
ghost use Rattle.rules.specs.DagPoint.{link_ids, point_view, dep_view, links_in, top_in};
ghost use Rattle.judge_valid.specs.Code.{link_ids_of, point_view_of, dep_view_of};

use parts::Id;
use point::{AnchorLink, AnchorStageRole, Point, PointId, PointRole};
use schedule::Settings;

// The target and the source of a link. Without the top, which is asked of a dependency only.
#[derive(Clone, Copy)]
pub struct LinkIds {
    pub target: PointId,
    pub source: PointId,
}

// Of the judged point.
#[derive(Clone, Copy)]
pub struct PointView {
    pub id: PointId,
    pub role: PointRole,
    pub time: u64,
    pub anchor_time: u64,
    pub prev_digest: Option<Id>,
    pub proof: LinkIds,
    pub trigger: LinkIds,
}

// Of a dependency.
#[derive(Clone, Copy)]
pub struct DepView {
    pub id: PointId,
    pub role: PointRole,
    pub time: u64,
    pub anchor_time: u64,
    pub proof_top: PointId,
    pub trigger_top: PointId,
}

// What every dependency is judged by: the settings, whether regular points are required, and the view of the point. Each is a fact of
// its own.
#[derive(Clone, Copy)]
pub struct By {
    pub conf: Settings,
    pub required: bool,
    pub view: PointView,
}

impl PointView {
    pub fn links(&self, role: AnchorStageRole) -> &LinkIds
        ensures { link_ids_of result.now ≡ links_in role (point_view_of self.now) }
    {
        match role {
            AnchorStageRole::Proof => &self.proof,
            AnchorStageRole::Trigger => &self.trigger,
        }
    }
}

impl DepView {
    pub fn top(&self, role: AnchorStageRole) -> PointId
        ensures { point_id_of result ≡ top_in role (dep_view_of self.now) }
    {
        match role {
            AnchorStageRole::Proof => self.proof_top,
            AnchorStageRole::Trigger => self.trigger_top,
        }
    }
}

#[tactic(auto, unfolding(rules::specs::DagPoint::link_ids, point::specs::Point::anchor))]
fn link_ids(point: &Point, role: AnchorStageRole) -> LinkIds
    ensures { link_ids_of result ≡ link_ids role (said point.now) }
{
    let view = point.anchor(role);
    LinkIds {
        target: view.target,
        source: view.source,
    }
}

// What judging asks of the point that it judges.
impl From<&Point<'_>> for PointView {
    ghost from_gives = { λ point view. point_view_of view ≡ point_view (said point.now) };

    #[tactic(auto, unfolding(rules::specs::DagPoint::point_view))]
    fn from(point: &Point<'_>) -> PointView {
        PointView {
            id: point.info.id,
            role: point.info.role,
            time: point.info.time,
            anchor_time: point.info.anchor_time,
            prev_digest: point.prev_digest(),
            proof: link_ids(point, AnchorStageRole::Proof),
            trigger: link_ids(point, AnchorStageRole::Trigger),
        }
    }
}

// The point itself where it has the role, else its link's target. Only a direct link's has to be looked up.
#[tactic(auto, unfolding(point::specs::Point::top, point::specs::Point::anchor), using(point::proofs::Laws::link_in_lem))]
fn top(point: &Point, role: AnchorStageRole) -> PointId
    ensures { point_id_of result ≡ top role (said point.now) }
{
    if point.info.role.is_anchor_stage(role) {
        return point.info.id;
    }
    match point.info.anchor_link(role) {
        AnchorLink::Indirect(indirect) => indirect.to,
        AnchorLink::Direct(_) => point.anchor(role).target,
    }
}

// What judging asks of a dependency.
impl From<&Point<'_>> for DepView {
    ghost from_gives = { λ point view. dep_view_of view ≡ dep_view (said point.now) };

    #[tactic(auto, unfolding(rules::specs::DagPoint::dep_view))]
    fn from(point: &Point<'_>) -> DepView {
        DepView {
            id: point.info.id,
            role: point.info.role,
            time: point.info.time,
            anchor_time: point.info.anchor_time,
            proof_top: top(point, AnchorStageRole::Proof),
            trigger_top: top(point, AnchorStageRole::Trigger),
        }
    }
}
