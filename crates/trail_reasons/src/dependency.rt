// The rules that a dependency is checked against: each reason that they give is put as a row.
ghost use Rattle.std.specs.Prelude.{◌≡◌, ◌+◌, ◌≤◌, ◌<◌, option_map};
ghost use Rattle.base.specs.Base.{concat, last_of};
ghost use Rattle.schedule.specs.Code.{settings_of};
ghost use Rattle.reasons.specs.Code.{reason_of};
ghost use Rattle.rules.specs.Trail.{rows_at};
ghost use Rattle.rules.specs.Validate.{source_row, anchor_rows, point_rows, indirect_point_rows};
ghost use Rattle.judge_valid.specs.Code.{point_view_of, dep_view_of};
ghost use Rattle.trail_rows.specs.Code.{Put};
ghost use Rattle.trail_reasons.specs.Code.{prev_row, indirect_target_row};

use judge_valid::{By, DepView, PointView};
use point::AnchorStageRole;
use reasons::InvalidReason;
use schedule::Settings;
use trail_rows::{Place, put_reason};

// The previous point's rule.
#[tactic(auto, unfolding(base::specs::Base::last_of))]
fn prev_reason(by: &By, is_prev_point: bool, q: &DepView) -> Option<InvalidReason>
    ensures { option_map reason_of result ≡ last_of (prev_row by.now.required is_prev_point (point_view_of by.now.view) (dep_view_of q.now)) }
{
    if !is_prev_point {
        return None;
    }
    judge_valid::check_proof(by.required, &by.view, q)
}

// Of a link's source.
fn put_source(
    out: &mut [u8],
    n: usize,
    place: Place,
    role: AnchorStageRole,
    p: &PointView,
    q: &DepView,
) -> usize
    requires { n < 10000000 }
    ensures put { Put out.old n (rows_at place.list place.entry (source_row role (point_view_of p.now) (dep_view_of q.now))) out.new result }
    ensures most { result ≤ n + 2 }
{
    if !judge_valid::is_source(role, p, q) {
        return n;
    }
    let n = put_reason(out, n, place, judge_valid::check_path(role, p, q));
    put_reason(out, n, place, judge_valid::check_carried(role, p, q))
}

// Of a link's target or source.
fn put_anchor(
    out: &mut [u8],
    n: usize,
    place: Place,
    conf: &Settings,
    p: &PointView,
    q: &DepView,
) -> usize
    requires { n < 2000000 }
    ensures put { Put out.old n
        (rows_at place.list place.entry (concat (anchor_rows (settings_of conf.now) (point_view_of p.now) (dep_view_of q.now))))
        out.new result }
    ensures most { result ≤ n + 6 }
{
    let proof = AnchorStageRole::Proof;
    let trigger = AnchorStageRole::Trigger;
    let n = put_reason(out, n, place, judge_valid::check_target(conf, proof, p, q));
    let n = put_reason(
        out,
        n,
        place,
        judge_valid::check_target(conf, trigger, p, q),
    );
    let n = put_source(out, n, place, proof, p, q);
    put_source(out, n, place, trigger, p, q)
}

// Of a dependency whose point is there, as `check_dependency` asks.
pub(crate) fn put_dependency(
    out: &mut [u8],
    n: usize,
    place: Place,
    by: &By,
    is_prev_point: bool,
    q: &DepView,
) -> usize
    requires { n < 1000000 }
    ensures put { Put out.old n
        (rows_at place.list place.entry
        (concat (point_rows (settings_of by.now.conf) by.now.required is_prev_point (point_view_of by.now.view) (dep_view_of q.now))))
        out.new result }
    ensures most { result ≤ n + 10 }
{
    let conf = &by.conf;
    let p = &by.view;
    let n = put_reason(out, n, place, prev_reason(by, is_prev_point, q));
    let n = put_reason(out, n, place, judge_valid::check_time(conf, p, q));
    let n = put_reason(
        out,
        n,
        place,
        judge_valid::check_newer(AnchorStageRole::Proof, p, q),
    );
    let n = put_reason(
        out,
        n,
        place,
        judge_valid::check_newer(AnchorStageRole::Trigger, p, q),
    );
    put_anchor(out, n, place, conf, p, q)
}

// Of an indirect link's target that has the role, or that it has not.
#[tactic(auto, unfolding(base::specs::Base::last_of))]
fn target_reason(role: AnchorStageRole, p: &PointView, q: &DepView) -> Option<InvalidReason>
    ensures { option_map reason_of result ≡ last_of (indirect_target_row role (point_view_of p.now) (dep_view_of q.now)) }
{
    if !q.role.is_anchor_stage(role) {
        return Some(InvalidReason::AnchorLinkRole {
            role,
            dependency: q.id,
        });
    }
    judge_valid::check_inherited(role, p, q)
}

// Of an indirect link's target whose point is there, as `check_indirect` asks.
pub(crate) fn put_target(
    out: &mut [u8],
    n: usize,
    place: Place,
    by: &By,
    role: AnchorStageRole,
    q: &DepView,
) -> usize
    requires { n < 1000000 }
    ensures put { Put out.old n
        (rows_at place.list place.entry
        (concat (indirect_point_rows (settings_of by.now.conf) role (point_view_of by.now.view) (dep_view_of q.now))))
        out.new result }
    ensures most { result ≤ n + 2 }
{
    let p = &by.view;
    let n = put_reason(out, n, place, judge_valid::check_time(&by.conf, p, q));
    put_reason(out, n, place, target_reason(role, p, q))
}
