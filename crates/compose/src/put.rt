// The fields of a record, written one after the other. Each function writes at a place and answers where the next field starts.
ghost use Rattle.std.specs.Prelude.{◌≡◌, ◌∷◌, ◌++◌, [], ◌+◌, ◌*◌, ◌/◌, ◌%◌, ◌≤◌, ◌<◌, ℕ, true, length, get_or, Some};
ghost use Rattle.parts.specs.Bytes.{Bytes, put_at, little_bytes};
ghost use Rattle.record.specs.Fields.{field_bytes};
ghost use Rattle.point.specs.Point.{PointInfo};
ghost use Rattle.compose.specs.Draft.{are_maps, role_part, handed_over, composed};
ghost use Rattle.compose.specs.Code.{draft_of, blocks, InOrder, map_by, set_by, record_length, Ordered};

use crate::draft::{Draft, Orders, link_part};
use row_order::MOST_ROWS;

// A field's tag and length.
#[tactic(auto, using(parts::proofs::Laws::write_little, write::proofs::Laws::put_put))]
fn put_head(out: &mut [u8], at: usize, tag: u8, len: usize)
    requires room { at + 3 ≤ length out.old }
    requires few { len ≤ 65535 }
    ensures { out.new ≡ put_at out.old at (tag ∷ little_bytes 2 len) }
{
    write::put_slice(out, at, &[tag]);
    write::put_slice(out, at + 1, &(len as u16).to_le_bytes());
}

// `bytes` is what the type of the slice says: put_record has it of a draft's parts from here alone.
#[tactic(auto, using(crate::proofs::Fields::put_content))]
fn put_field(out: &mut [u8], at: usize, tag: u8, content: &[u8]) -> usize
    requires room { at + 3 + length content.now ≤ length out.old }
    requires few { length content.now ≤ 65535 }
    ensures written { out.new ≡ put_at out.old at (field_bytes tag content.now) }
    ensures next { result ≡ at + 3 + length content.now }
    ensures bytes { Bytes content.now }
{
    put_head(out, at, tag, content.len());
    write::put_run(out, at + 3, content);
    at + 3 + content.len()
}

// Blocks of 32 bytes: those at the positions of an order, counted from a first one.
#[tactic(auto, using(crate::proofs::Fields::placed))]
fn put_blocks(out: &mut [u8], at: usize, rows: &[u8], first: usize, order: &[u8])
    requires room { at + 32 * length order.now ≤ length out.old }
    requires inside { (k : ℕ) → k < length order.now → 32 * (first + get_or order.now k 0) + 32 ≤ length rows.now }
    ensures { out.new ≡ put_at out.old at (blocks rows.now first order.now) }
{
    for k in 0..order.len() {
        let from = 32 * (first + order[k] as usize);
        write::put_slice(out, at + 32 * k, &rows[from..from + 32]);
    }
}

// Whether each position is its own place in the order. In most others the first one differs already. Else all are looked at, since several at
// a time are quicker than to stop at one.
fn is_in_order(order: &[u8]) -> bool
    requires { length order.now ≤ 255 }
    ensures only { result ≡ true → InOrder order.now }
    ensures each { InOrder order.now → result ≡ true }
{
    if !order.is_empty() && order[0] != 0 {
        return false;
    }
    let mut in_order = true;
    for k in 0..order.len() {
        in_order &= order[k] == k as u8;
    }
    in_order
}

// A map: its peers in an order, then its digests in the same. Where its rows rise as they came, it is copied whole.
#[tactic(auto, using(crate::proofs::Rows::map_put, crate::proofs::Rows::map_in_order))]
fn put_map(out: &mut [u8], at: usize, tag: u8, map: &[u8], order: &[u8; MOST_ROWS]) -> usize
    requires room { at + 3 + length map.now ≤ length out.old }
    requires whole { (length map.now % 64 ≡ 0) × (length map.now / 64 ≤ 255) }
    requires inside { (k : ℕ) → k < length map.now / 64 → get_or order.now k 0 < length map.now / 64 }
    ensures written { out.new ≡ put_at out.old at (field_bytes tag (map_by map.now order.now)) }
    ensures next { result ≡ at + 3 + length map.now }
    ensures bytes { Bytes map.now }
{
    let n = map.len() / 64;
    if is_in_order(&order[..n]) {
        return put_field(out, at, tag, map);
    }
    put_head(out, at, tag, map.len());
    put_blocks(out, at + 3, map, 0, &order[..n]);
    put_blocks(out, at + 3 + 32 * n, map, n, &order[..n]);
    at + 3 + map.len()
}

// A set: its peers in an order. Where these rise as they came, it is copied whole.
#[tactic(auto, using(crate::proofs::Rows::set_put, crate::proofs::Rows::set_in_order))]
fn put_set(out: &mut [u8], at: usize, tag: u8, set: &[u8], order: &[u8; MOST_ROWS]) -> usize
    requires room { at + 3 + length set.now ≤ length out.old }
    requires whole { (length set.now % 32 ≡ 0) × (length set.now / 32 ≤ 255) }
    requires inside { (k : ℕ) → k < length set.now / 32 → get_or order.now k 0 < length set.now / 32 }
    ensures written { out.new ≡ put_at out.old at (field_bytes tag (set_by set.now order.now)) }
    ensures next { result ≡ at + 3 + length set.now }
    ensures bytes { Bytes set.now }
{
    let n = set.len() / 32;
    if is_in_order(&order[..n]) {
        return put_field(out, at, tag, set);
    }
    put_head(out, at, tag, set.len());
    put_blocks(out, at + 3, set, 0, &order[..n]);
    at + 3 + set.len()
}

#[tactic(auto, using(crate::proofs::Fields::put_numbers))]
fn put_payload(out: &mut [u8], at: usize, draft: &Draft) -> usize
    requires { at + 11 ≤ length out.old }
    ensures written { out.new ≡ put_at out.old at
        (field_bytes 2 (little_bytes 4 draft.now.payload_len ++ little_bytes 4 draft.now.payload_bytes)) }
    ensures next { result ≡ at + 11 }
{
    put_head(out, at, 2, 8);
    write::put_u32(out, at + 3, draft.payload_len);
    write::put_u32(out, at + 7, draft.payload_bytes);
    at + 11
}

fn put_role(out: &mut [u8], at: usize, draft: &Draft) -> usize
    requires { at + 3 + length (role_part (draft_of draft.now)) ≤ length out.old }
    ensures written { out.new ≡ put_at out.old at (field_bytes 8 (role_part (draft_of draft.now))) }
    ensures next { result ≡ at + 3 + length (role_part (draft_of draft.now)) }
{
    if draft.role == 1 {
        put_field(out, at, 8, &[draft.role, draft.seq_no, draft.is_last])
    } else {
        put_field(out, at, 8, &[draft.role])
    }
}

#[tactic(auto, using(crate::proofs::Fields::put_numbers, parts::proofs::Laws::write_little))]
fn put_times(out: &mut [u8], at: usize, draft: &Draft)
    requires { at + 19 ≤ length out.old }
    ensures { out.new ≡ put_at out.old at (field_bytes 9 (little_bytes 8 draft.now.time ++ little_bytes 8 draft.now.anchor_time)) }
{
    put_head(out, at, 9, 16);
    write::put_slice(out, at + 3, &draft.time.to_le_bytes());
    write::put_slice(out, at + 11, &draft.anchor_time.to_le_bytes());
}

// The record of the point that was handed over, at the front of the output.
#[tactic(auto, using(crate::proofs::Rows::order_below))]
pub fn put_record(out: &mut [u8], draft: &Draft, orders: &Orders)
    requires room { record_length (draft_of draft.now) ≤ length out.old }
    requires maps { are_maps (draft_of draft.now) ≡ true }
    requires ordered { Ordered (draft_of draft.now) orders.now }
    ensures { (p : PointInfo) → handed_over (draft_of draft.now) ≡ Some p → out.new ≡ put_at out.old 0 (composed p) }
{
    let id = draft.id;
    let includes = draft.includes;
    let witness = draft.witness;
    let evidence = draft.evidence;
    let at = put_field(out, 0, 1, id);
    let at = put_payload(out, at, draft);
    let at = put_map(out, at, 3, includes, &orders.includes);
    let at = put_map(out, at, 4, witness, &orders.witness);
    let at = put_set(out, at, 5, evidence, &orders.evidence);
    let at = put_field(out, at, 6, link_part(draft.anchor_proof));
    let at = put_field(out, at, 7, link_part(draft.anchor_trigger));
    let at = put_role(out, at, draft);
    put_times(out, at, draft);
}
