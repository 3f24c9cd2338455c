// The entries of indirect targets: each the target of one of the point's links, and each link once.
ghost use Rattle.std.specs.Prelude.{◌≡◌, true, false, List, [], ℕ, option_map};
ghost use Rattle.point.specs.Code.{point_id_of, link_of, point_of};
ghost use Rattle.rules.specs.List.{directs, indirects};
ghost use Rattle.judge_mismatch.specs.Code.{listed, is_target_with};
ghost use Rattle.rules.specs.Mismatch.{all_targets};

use crate::entries::ReadableList;
use point::{AnchorLink, AnchorStageRole, PointId, PointInfo};
use std::mem;

// Whether an indirect link leads to the target that an entry stands for; a dropped one, without an id, stands for any. A test of a link:
// no two values of one type are compared.
fn is_target(link: AnchorLink, id: Option<PointId>) -> bool
    ensures { result ≡ is_target_with (link_of link) (option_map point_id_of id) }
{
    match link {
        AnchorLink::Direct(_) => false,
        AnchorLink::Indirect(indirect) => id.is_none_or(|id| point::is_same_id(id, indirect.to)),
    }
}

// Whether the entries of a list of indirect ones are the targets of the point's links, each once.
pub fn are_targets(info: PointInfo, list: &ReadableList) -> bool
    requires { directs (listed list.now.bytes.now) ≡ [] }
    ensures { (s : List ℕ) → result ≡ all_targets (point_of s info) false false (indirects (listed list.now.bytes.now)) }
{
    let mut proof = false;
    let mut trigger = false;
    for (_, head) in list.entries() {
        let Some(role) = head.aim else {
            return false;
        };
        let stood = match role {
            AnchorStageRole::Proof => mem::replace(&mut proof, true),
            AnchorStageRole::Trigger => mem::replace(&mut trigger, true),
        };
        if stood || !is_target(info.anchor_link(role), head.id) {
            return false;
        }
    }
    true
}
