// Fields of a tag, a length and content, and the table of the nine fields of a point record.
#![tactic(auto)]

mod fields;

ghost use Rattle.std.specs.Prelude.{◌≡◌, true, ◌+◌, ◌<◌, ◌≤◌, length, Some, None, is_some, MatchOption};
ghost use Rattle.record.specs.Record.{length_at, field_ok, next_at, content_at, start_of, content_of, record_end, well_shaped};
ghost use Rattle.record.specs.Code.{PlacesOf, length_if, Walked, Shaped, ShapeOf};

pub use fields::Fields;

// A row of the table of fields: the tag, and the least and the greatest length of the content.
#[derive(Clone, Copy)]
pub struct Row {
    pub tag: u8,
    pub least: usize,
    pub greatest: usize,
}

// A row in one line.
macro_rules! row {
    ($tag:literal, $least:literal, $greatest:literal) => {
        Row {
            tag: $tag,
            least: $least,
            greatest: $greatest,
        }
    };
}

const ROWS: [Row; 9] = [
    row!(1, 68, 68),
    row!(2, 8, 8),
    row!(3, 0, 16320),
    row!(4, 0, 16320),
    row!(5, 0, 8160),
    row!(6, 34, 102),
    row!(7, 34, 102),
    row!(8, 1, 3),
    row!(9, 16, 16),
];

// Where the fields of a record after the first start.
#[derive(Clone, Copy)]
pub struct Places {
    pub payload: usize,
    pub includes: usize,
    pub witness: usize,
    pub evidence: usize,
    pub anchor_proof: usize,
    pub anchor_trigger: usize,
    pub role: usize,
    pub times: usize,
}

// Where the fields of a record at the front of a slice start, and where it ends.
#[derive(Clone, Copy)]
pub struct Shape {
    pub at: Places,
    pub end: usize,
}

// Where the field after the one at a place starts; a field that is cut off ends with the slice. That a place lies in the slice is asked
// of each function: a place moves with each field, and a struct of both would be made anew at each step.
#[tactic(auto, unfolding(crate::specs::Record::next_at))]
pub fn next(s: &[u8], at: usize) -> usize
    requires { at ≤ length s.now }
    ensures { result ≡ next_at s.now at }
{
    if s.len() - at < 3 {
        return s.len();
    }
    let n = parts::u16_at(s, at + 1) as usize;
    (at + 3 + n).min(s.len())
}

// Where a field that lies whole in the slice ends: the same, with nothing left to test.
#[tactic(auto, unfolding(crate::specs::Record::next_at))]
fn field_end(s: &[u8], at: usize) -> usize
    requires { at + 3 + length_at s.now at ≤ length s.now }
    ensures { result ≡ next_at s.now at }
{
    let n = parts::u16_at(s, at + 1) as usize;
    at + 3 + n
}

// The content of the field at a place, as a part of the slice.
#[tactic(auto, unfolding(crate::specs::Record::content_at))]
pub fn content_at(s: &[u8], at: usize) -> &[u8]
    requires { at ≤ length s.now }
    ensures { result.now ≡ content_at s.now at }
{
    s.get(at + 3..next(s, at)).unwrap_or(&[])
}

// The length in the head at a place, if the tag there is a row's and the length is within the row's limits.
#[tactic(auto, unfolding(crate::specs::Code::length_if))]
fn length_if_ok(s: &[u8], at: usize, row: Row) -> Option<u16>
    requires { at + 3 ≤ length s.now }
    ensures { result ≡ length_if row s.now at }
{
    if s[at] != row.tag {
        return None;
    }
    let n = parts::u16_at(s, at + 1);
    (row.least..=row.greatest)
        .contains(&usize::from(n))
        .then_some(n)
}

// Whether the field at a place fits a row of a table and lies in the slice.
#[tactic(auto, unfolding(crate::specs::Record::field_ok, crate::specs::Code::length_if))]
pub fn field_ok(s: &[u8], at: usize, row: Row) -> bool
    requires { at ≤ length s.now }
    ensures { result ≡ field_ok row s.now at }
{
    if s.len() - at < 3 {
        return false;
    }
    length_if_ok(s, at, row).is_some_and(|n| at + 3 + n as usize <= s.len())
}

// Where the field after field k of a record starts, if field k fits its row and a head has room after it.
// Without the attribute each field of `read_shape` is a call, and it takes four times as long.
#[inline(always)]
fn next_if_ok(s: &[u8], at: usize, k: usize) -> Option<usize>
    requires at_value { Walked s.now k at }
    requires k_bound { k < 8 }
    ensures { MatchOption result (record_end s.now ≡ None) (Walked s.now (k + 1)) }
{
    let end = at + 3 + length_if_ok(s, at, ROWS[k])? as usize;
    (end + 3 <= s.len()).then_some(end)
}

// Where the nine fields at the front of a slice start and end, found in one walk. With `record_end` and then `Fields::find` in place of this
// walk an offer to a book of 100 entries takes 5 % more instructions.
pub fn read_shape(s: &[u8]) -> Option<Shape>
    ensures { ShapeOf s.now result }
{
    if s.len() < 3 {
        return None;
    }
    let payload = next_if_ok(s, 0, 0)?;
    let includes = next_if_ok(s, payload, 1)?;
    let witness = next_if_ok(s, includes, 2)?;
    let evidence = next_if_ok(s, witness, 3)?;
    let anchor_proof = next_if_ok(s, evidence, 4)?;
    let anchor_trigger = next_if_ok(s, anchor_proof, 5)?;
    let role = next_if_ok(s, anchor_trigger, 6)?;
    let times = next_if_ok(s, role, 7)?;
    if !field_ok(s, times, ROWS[8]) {
        return None;
    }
    let at = Places {
        payload,
        includes,
        witness,
        evidence,
        anchor_proof,
        anchor_trigger,
        role,
        times,
    };
    Some(Shape {
        at,
        end: field_end(s, times),
    })
}

// Where the nine fields at the front of a slice end. A walk of its own: with the end that `read_shape` finds, the compiler no longer puts that
// walk into its other caller, and an offer to a book of 100 entries takes 4 % more instructions.
pub fn record_end(s: &[u8]) -> Option<usize>
    ensures { result ≡ record_end s.now }
{
    let mut at = 0;
    for &row in &ROWS {
        if !field_ok(s, at, row) {
            return None;
        }
        at = field_end(s, at);
    }
    Some(at)
}

// Where the fields start and end of a record that is known to stand at the front of a slice: nothing of it is tested again.
#[tactic(auto, unfolding(crate::specs::Record::start_of))]
fn known_shape(s: &[u8]) -> Shape
    requires { is_some (record_end s.now) ≡ true }
    ensures { Shaped s.now result }
{
    let payload = field_end(s, 0);
    let includes = field_end(s, payload);
    let witness = field_end(s, includes);
    let evidence = field_end(s, witness);
    let anchor_proof = field_end(s, evidence);
    let anchor_trigger = field_end(s, anchor_proof);
    let role = field_end(s, anchor_trigger);
    let times = field_end(s, role);
    let at = Places {
        payload,
        includes,
        witness,
        evidence,
        anchor_proof,
        anchor_trigger,
        role,
        times,
    };
    Shape {
        at,
        end: field_end(s, times),
    }
}

// Where a record ends that is known to stand there.
pub fn known_end(s: &[u8]) -> usize
    requires { is_some (record_end s.now) ≡ true }
    ensures { record_end s.now ≡ Some result }
{
    known_shape(s).end
}

// Whether a slice is the nine fields and nothing after them.
#[tactic(auto, unfolding(crate::specs::Record::well_shaped))]
pub fn is_well_shaped(rec: &[u8]) -> bool
    ensures { result ≡ well_shaped rec.now }
{
    record_end(rec) == Some(rec.len())
}

// The content of field k of a whole record, counted from 0, whose start and end are known, as a part of the record.
pub fn content_from(rec: &[u8], at: usize, end: usize, k: usize) -> &[u8]
    requires rec_value { (well_shaped rec.now ≡ true) × (k < 9) }
    requires at_value { (at ≡ start_of rec.now k) × (end ≡ start_of rec.now (k + 1)) }
    ensures { result.now ≡ content_of rec.now k }
{
    &rec[at + 3..end]
}
