// The status of a kept point.
ghost use Rattle.std.specs.Prelude.{◌≡◌, List, ℕ};
ghost use Rattle.point.specs.Point as point;
ghost use Rattle.point.specs.Code.{point_of, Reads};
ghost use Rattle.reasons.specs.Code.{verdict_of};
ghost use Rattle.judge_entries.specs.Code.{dag_point_of, ReadFrom};
ghost use Rattle.books.specs.Lists.{dag_point};
ghost use Rattle.books.specs.Offer.{left_by};
ghost use Rattle.book_layout.specs.Code.{status_of, left_of};

use judge_entries::DagPoint;
use point::PointInfo;
use reasons::{InvalidDependency, Verdict};

// A reason is its number.
#[derive(Clone, Copy)]
pub enum Status {
    Valid,
    TransInvalid(InvalidDependency),
    Invalid(u8),
    IllFormed(u8),
}

// No From, and no TryFrom: Fail leaves nothing, which is no error.
pub fn of_verdict(verdict: Verdict) -> Option<Status>
    ensures { (s : List ℕ) (q : point.PointInfo) → left_of s q result ≡ left_by s q (verdict_of verdict) }
{
    match verdict {
        Verdict::Fail(_) => None,
        Verdict::IllFormed(reason) => Some(Status::IllFormed(reason.number())),
        Verdict::Invalid(reason) => Some(Status::Invalid(reason.number())),
        Verdict::TransInvalid(d) => Some(Status::TransInvalid(d)),
        Verdict::Valid => Some(Status::Valid),
    }
}

// What the judge is told of a kept point. No From, since it is of two values, and a pair of them is no type of this crate.
pub fn dag_point(info: PointInfo, status: Status) -> DagPoint
    ensures same { (s : List ℕ) → dag_point_of s result ≡ dag_point (point_of s info) (status_of status) }
    ensures from { (s : List ℕ) → Reads s info → ReadFrom s result }
{
    match status {
        Status::Valid => DagPoint::Valid(info),
        Status::TransInvalid(d) => DagPoint::TransInvalid {
            info,
            root: d.to,
            root_reason: d.reason,
        },
        Status::Invalid(reason) => DagPoint::Invalid { info, reason },
        Status::IllFormed(reason) => DagPoint::IllFormed {
            id: info.id,
            reason,
        },
    }
}
