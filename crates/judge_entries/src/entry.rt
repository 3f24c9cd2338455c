// An entry of a list, with its point's record.
ghost use Rattle.std.specs.Prelude.{◌≡◌, List, ℕ, None, Some};
ghost use Rattle.std.specs.Option.{MatchOption};
ghost use Rattle.point.specs.Code.{point_id_of};
ghost use Rattle.rules.specs.DagPoint.{entry_id, is_dropped};
ghost use Rattle.judge_entries.specs.Code.{dag_point_of, info_of, ReadFrom};

use point::{AnchorStageRole, Point, PointId, PointInfo};

// What a list says of a dependency: its point or its id, the id of its root cause, the number of a reason. A point's maps stay in its
// record.
#[derive(Clone, Copy)]
pub enum DagPoint {
    Valid(PointInfo),
    TransInvalid {
        info: PointInfo,
        root: PointId,
        root_reason: u8,
    },
    Invalid {
        info: PointInfo,
        reason: u8,
    },
    IllFormed {
        id: PointId,
        reason: u8,
    },
    NotFound(PointId),
    Dropped,
}

// What stands after an entry's flags: the point with its record, if it has one, and how many bytes they take. The record stands once
// beside the state, and not in three of its cases, so that what is said of it is said once.
#[derive(Clone, Copy)]
pub(crate) struct Stated<'a> {
    pub rec: &'a [u8],
    pub state: DagPoint,
    pub size: usize,
    pub ghost read: { ReadFrom rec.now state },
}

// A dependency as a list or a book says it. That it is certified and that it is the first valid one are facts of their own beside the
// state, and the record stands beside it as in Stated.
#[derive(Clone, Copy)]
pub struct Entry<'a> {
    pub rec: &'a [u8],
    pub state: DagPoint,
    pub certified: bool,
    pub first_valid: bool,
    pub ghost read: { ReadFrom rec.now state },
}

// An entry at the front of a slice, what link it is for if its target's, and how many bytes it takes.
#[derive(Clone, Copy)]
pub struct Listed<'a> {
    pub aim: Option<AnchorStageRole>,
    pub entry: Entry<'a>,
    pub size: usize,
}

impl DagPoint {
    #[tactic(auto, using(parts::proofs::Laws::number_zero))]
    pub fn id(&self) -> PointId
        ensures { (s : List ℕ) → point_id_of result ≡ entry_id (dag_point_of s self.now) }
    {
        match self {
            DagPoint::Valid(info)
            | DagPoint::TransInvalid { info, .. }
            | DagPoint::Invalid { info, .. } => info.id,
            DagPoint::IllFormed { id, .. } | DagPoint::NotFound(id) => *id,
            DagPoint::Dropped => point::NO_POINT,
        }
    }

    pub fn is_dropped(&self) -> bool
        ensures { (s : List ℕ) → result ≡ is_dropped (dag_point_of s self.now) }
    {
        matches!(self, DagPoint::Dropped)
    }
}

impl<'a> Entry<'a> {
    // The entry's point, if it has one.
    pub fn point(&self) -> Option<Point<'a>>
        ensures { MatchOption result (info_of self.now.state ≡ None)
            (λ p. (info_of self.now.state ≡ Some p.info) × (p.rec.now ≡ self.now.rec.now)) }
    {
        match self.state {
            DagPoint::Valid(info)
            | DagPoint::TransInvalid { info, .. }
            | DagPoint::Invalid { info, .. } => Some(Point {
                rec: self.rec,
                info,
            }),
            _ => None,
        }
    }
}
