// An uncertified entry written into a lent slice. Each function writes at a place of the book, as write's do, so each asks for its room there.
ghost use Rattle.std.specs.Prelude.{◌≡◌, false, ◌∷◌, ◌+◌, ◌≤◌, length, replicate};
ghost use Rattle.parts.specs.Bytes.{put_at};
ghost use Rattle.parts.specs.Limits.{tag33_length};
ghost use Rattle.point.specs.Point as point;
ghost use Rattle.point.specs.Code.{through_of};
ghost use Rattle.reasons.specs.Code.{dependency_of};
ghost use Rattle.books.specs.Kept.{TransInvalid};
ghost use Rattle.books.specs.Offer.{kept_as};
ghost use Rattle.point.specs.Written.{through_bytes};
ghost use Rattle.books.specs.Layout.{status_bytes, kept_bytes};
ghost use Rattle.book_layout.specs.Code.{status_of};

use crate::status::Status;
use point::Through;
use reasons::InvalidDependency;

// A root's reason, and the map and the peer that it came through. The map's byte is tag 33's, not PointMap's number.
#[tactic(auto, using(write::proofs::Laws::put_put))]
fn put_through(out: &mut [u8], at: usize, reason: u8, through: Through)
    requires { at + 34 ≤ length out.old }
    ensures { out.new ≡ put_at out.old at (reason ∷ through_bytes (through_of through)) }
{
    let (map, peer) = match through {
        Through::Includes(peer) => (0, peer),
        Through::Witness(peer) => (1, peer),
    };
    write::put_slice(out, at, &[reason, map]);
    write::put_id(out, at + 2, peer);
}

#[tactic(auto, unfolding(books::specs::Layout::status_bytes), using(crate::proofs::Laws::put_right, point::proofs::PartsWritten::id_length))]
fn put_root(out: &mut [u8], at: usize, d: InvalidDependency)
    requires { at + 105 ≤ length out.old }
    ensures { out.new ≡ put_at out.old at (status_bytes (TransInvalid (dependency_of d)) false) }
{
    write::put_slice(out, at, &[1, 0, 0]);
    point::put_point_id(out, at + 3, d.to);
    put_through(out, at + 71, d.reason, d.through);
}

// A state with its own reason, and no root cause.
#[tactic(auto, using(write::proofs::Laws::put_put))]
fn put_state(out: &mut [u8], at: usize, state: u8, reason: u8)
    requires { at + 105 ≤ length out.old }
    ensures { out.new ≡ put_at out.old at (state ∷ 0 ∷ reason ∷ replicate 102 0) }
{
    write::put_slice(out, at, &[state, 0, reason]);
    write::put_slice(out, at + 3, &[0; 102]);
}

#[tactic(auto, unfolding(books::specs::Layout::status_bytes))]
fn put_status(out: &mut [u8], at: usize, status: Status)
    requires { at + 105 ≤ length out.old }
    ensures { out.new ≡ put_at out.old at (status_bytes (status_of status) false) }
{
    match status {
        Status::Valid => put_state(out, at, 0, 0),
        Status::TransInvalid(d) => put_root(out, at, d),
        Status::Invalid(n) => put_state(out, at, 2, n),
        Status::IllFormed(n) => put_state(out, at, 3, n),
    }
}

// Writes the entry of a record, uncertified, at a place.
#[tactic(auto, unfolding(books::specs::Layout::kept_bytes), using(crate::proofs::Laws::put_right))]
pub fn put_kept(out: &mut [u8], at: usize, rec: &[u8], status: Status)
    requires { at + length rec.now + tag33_length ≤ length out.old }
    ensures { (q : point.PointInfo) → out.new ≡ put_at out.old at (kept_bytes (kept_as rec.now q (status_of status))) }
{
    write::put_run(out, at, rec);
    let tag = at + rec.len();
    write::put_slice(out, tag, &[33, 105, 0]);
    put_status(out, tag + 3, status);
}
