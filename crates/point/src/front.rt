// Whether a record of the right shape is a point, and what is asked of it, without the point by value: a walk over many records
// makes no point of any.
ghost use Rattle.std.specs.Prelude.{◌≡◌, ◌≤◌, length, Some, is_some};
ghost use Rattle.record.specs.Record.{start_of, well_shaped};
ghost use Rattle.record.specs.Code.{PlacesOf};
ghost use Rattle.point.specs.Point as point;
ghost use Rattle.point.specs.Reading.{read_link, read_role, maps_ok, read_point, read_point_in};

use crate::info;
use map::Arrangement;
use record::Fields;

// Whether a link can be read.
#[tactic(auto, unfolding(crate::specs::Reading::read_link))]
fn is_link(s: &[u8]) -> bool
    requires { 34 ≤ length s.now }
    ensures { result ≡ is_some (read_link s.now) }
{
    s[1] <= 1 && matches!((s.len(), s[0]), (34, 0) | (102, 1))
}

// Whether a role can be read.
#[tactic(auto, unfolding(crate::specs::Reading::read_role))]
fn is_role(s: &[u8]) -> bool
    ensures { result ≡ is_some (read_role s.now) }
{
    matches!(s, [0 | 2 | 3] | [1, _, 0 | 1])
}

// Whether includes and witness, in an arrangement, and evidence are whole rows that rise.
#[inline(always)]
#[tactic(auto, unfolding(crate::specs::Reading::maps_ok))]
fn are_maps_ok(fields: &Fields, arrangement: Arrangement) -> bool
    ensures { result ≡ maps_ok arrangement fields.now.rec.now }
{
    map::is_map(fields.includes(), arrangement)
        && map::is_map(fields.witness(), arrangement)
        && map::is_well_rowed(fields.evidence(), 32)
}

// Whether a record is a point.
pub fn is_point(fields: &Fields) -> bool
    ensures { result ≡ is_some (read_point fields.now.rec.now) }
{
    is_point_in(fields, Arrangement::Columns)
}

// Whether a record is a point, with its maps in an arrangement.
#[inline(always)]
#[tactic(auto, using(crate::proofs::Laws::shape_facts, crate::proofs::Known::some_in))]
pub fn is_point_in(fields: &Fields, arrangement: Arrangement) -> bool
    ensures { result ≡ is_some (read_point_in arrangement fields.now.rec.now) }
{
    are_maps_ok(fields, arrangement)
        && is_link(fields.anchor_proof())
        && is_link(fields.anchor_trigger())
        && is_role(fields.role())
}

// Whether the point of a record lies in the domain.
#[tactic(auto, using(crate::proofs::Laws::shape_facts, crate::proofs::Known::domain_by))]
pub fn is_record_in_domain(fields: &Fields) -> bool
    ensures { (q : point.PointInfo) → read_point fields.now.rec.now ≡ Some q → result ≡ point.in_domain q }
{
    let round = parts::u32_at(fields.id(), 0);
    let times = fields.times();
    info::are_in_domain(round, parts::u64_at(times, 0), parts::u64_at(times, 8))
}
