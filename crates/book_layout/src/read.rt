// An entry at the front of a slice.
ghost use Rattle.std.specs.Prelude.{◌≡◌, true, ◌&&◌, ◌+◌, ◌≤◌, length, get_or, Some, is_some};
ghost use Rattle.parts.specs.Bytes.{bytes_at};
ghost use Rattle.parts.specs.Limits.{tag33_length};
ghost use Rattle.record.specs.Record.{start_of};
ghost use Rattle.point.specs.Point as point;
ghost use Rattle.point.specs.Reading.{read_link, read_point};
ghost use Rattle.rules.specs.List.{is_named};
ghost use Rattle.judge_entries.specs.Entry.{entry_of};
ghost use Rattle.books.specs.Layout.{is_root_ok, read_status, read_kept, kept_front};
ghost use Rattle.book_layout.specs.Code.{status_of, kept_of, shown, KeptAt, KeptEnd};

use crate::point_fields::PointFields;
use crate::status::Status;
use crate::{status, zeros};
use judge_entries::Entry;
use point::Point;
use reasons::InvalidDependency;
use record::{Fields, Row};

// An entry: its point, what is said of it, and its mark, which is a fact of its own.
#[derive(Clone, Copy)]
pub struct Kept<'a> {
    pub point: Point<'a>,
    pub status: Status,
    pub certified: bool,
}

impl<'a> Kept<'a> {
    // What the judge is told of it.
    pub fn entry(&self, first_valid: bool) -> Entry<'a>
        ensures shown { entry_of result ≡ shown (kept_of self.now) first_valid }
        ensures rec { result.rec.now ≡ self.now.point.rec.now }
    {
        Entry {
            rec: self.point.rec,
            state: status::dag_point(self.point.info, self.status),
            certified: self.certified,
            first_valid,
        }
    }
}

const TAG: Row = Row {
    tag: 33,
    least: 105,
    greatest: 105,
};

// Whether a root cause in the domain stands in tag 33.
#[tactic(auto, unfolding(books::specs::Layout::is_root_ok, point::specs::Reading::point_id_at))]
fn is_root(t: &[u8; 105]) -> bool
    ensures { result ≡ is_root_ok t.now }
{
    parts::is_round(parts::u32_at(t, 3)) && judge_entries::is_reason(t[71]) && t[72] <= 1
}

// Whether the 105 bytes of tag 33 say a status, asked byte by byte: no value is made of any entry.
#[tactic(auto, using(crate::proofs::Laws::status_some))]
fn is_status(t: &[u8; 105]) -> bool
    ensures { result ≡ is_some (read_status t.now) }
{
    match t[0] {
        0 => t[2] == 0 && zeros::is_tail_zero(t),
        1 => t[2] == 0 && is_root(t),
        2 => judge_entries::is_reason(t[2]) && zeros::is_tail_zero(t),
        3 => reasons::is_ill_formed(t[2]) && zeros::is_tail_zero(t),
        _ => false,
    }
}

// The status that they say. The format's byte becomes the enum's case here.
#[tactic(auto, using(crate::proofs::Laws::status_read))]
fn status_of(t: &[u8; 105]) -> Status
    requires { is_some (read_status t.now) ≡ true }
    ensures { read_status t.now ≡ Some (status_of result) }
{
    match t[0] {
        0 => Status::Valid,
        1 => Status::TransInvalid(InvalidDependency {
            to: point::point_id_at(t, 3),
            reason: t[71],
            through: point::through_at(t, 72),
        }),
        2 => Status::Invalid(t[2]),
        _ => Status::IllFormed(t[2]),
    }
}

// Where the peer of a direct link, which is still bytes, stands in its map. By the map's byte: a Through would be taken apart again, into its
// map and its peer.
#[tactic(auto, using(crate::proofs::Named::shaped))]
fn peer_position(from: &PointFields, link: &[u8]) -> Option<u16>
    requires { (34 ≤ length link.now) × (get_or link.now 0 0 ≡ 1 → ⊥) }
    ensures { (q : point.PointInfo) (l : point.AnchorLink) → read_point from.now.fields.rec.now ≡ Some q →
        read_link link.now ≡ Some l → is_some result ≡ is_named q l }
{
    let rows = match link[1] {
        0 => from.fields.includes(),
        _ => from.fields.witness(),
    };
    map::search(rows, 64, parts::id_at(link, 2))
}

// Whether a link, if it is direct, names a peer of its map.
#[tactic(auto, using(crate::proofs::Named::indirect_named))]
fn is_named(from: &PointFields, link: &[u8]) -> bool
    requires { 34 ≤ length link.now }
    ensures { (q : point.PointInfo) (l : point.AnchorLink) → read_point from.now.fields.rec.now ≡ Some q →
        read_link link.now ≡ Some l → result ≡ is_named q l }
{
    link[0] == 1 || peer_position(from, link).is_some()
}

// Whether both links of a record, where they are direct, name peers of their maps.
#[tactic(auto, using(crate::proofs::Named::links_read))]
fn are_named(from: &PointFields) -> bool
    ensures { (q : point.PointInfo) → read_point from.now.fields.rec.now ≡ Some q →
        result ≡ (is_named q q.anchor_proof && is_named q q.anchor_trigger) }
{
    is_named(from, from.fields.anchor_proof()) && is_named(from, from.fields.anchor_trigger())
}

// Whether a record and the 105 bytes of tag 33 are an entry. 3 is tag 33's byte of an ill-formed entry.
#[tactic(auto, using(crate::proofs::Named::shaped, crate::proofs::Laws::entry_told))]
fn is_entry(from: &PointFields, t: &[u8; 105]) -> bool
    ensures { (q : point.PointInfo) → read_point from.now.fields.rec.now ≡ Some q →
        result ≡ is_some (read_kept from.now.fields.rec.now q t.now) }
{
    t[1] <= 1
        && is_status(t)
        && point::is_record_in_domain(&from.fields)
        && (t[0] == 3 || are_named(from))
}

// The 105 bytes of tag 33 after a record of n bytes.
fn tag_after(s: &[u8], n: usize) -> &[u8; 105]
    requires { n + tag33_length ≤ length s.now }
    ensures { result.now ≡ bytes_at 105 s.now (n + 3) }
{
    s[n + 3..n + parts::TAG33_LENGTH].try_into().unwrap()
}

// Where the record of the entry at the front of a slice ends: what a walk over many entries asks, and no value is made of any entry.
pub fn kept_end(s: &[u8]) -> Option<usize>
    ensures { KeptEnd s.now result }
{
    let shape = record::read_shape(s)?;
    let n = shape.end;
    let fields = Fields {
        rec: &s[..n],
        at: shape.at,
    };
    if !point::is_point(&fields) || !record::field_ok(s, n, TAG) {
        return None;
    }
    is_entry(&PointFields { fields }, tag_after(s, n)).then_some(n)
}

// The entry at the front of a slice that is known to stand there: nothing of it is tested again.
pub fn known_kept(s: &[u8]) -> Kept<'_>
    requires { is_some (kept_front s.now) ≡ true }
    ensures { KeptAt s.now result }
{
    let n = record::known_end(s);
    let t = tag_after(s, n);
    Kept {
        point: point::known_point(&s[..n]),
        status: status_of(t),
        certified: t[1] == 1,
    }
}
