// A point record moved from one arrangement of its maps into the other, into a lent slice (document 02, U5). Of a record it moves nothing
// but its maps.
#![tactic(auto)]

ghost use Rattle.std.specs.Prelude.{◌≡◌, true, ◌+◌, ◌*◌, ◌%◌, ◌≤◌, ◌<◌, length};
ghost use Rattle.parts.specs.Bytes.{put_at};
ghost use Rattle.map.specs.declared.Arrangement.TheVariants.{Pairs, Columns};
ghost use Rattle.map.specs.Moved.{came_from, moved};
ghost use Rattle.point.specs.Converted.{conversion, output};
ghost use Rattle.reasons.specs.Refusal.{numbered};

use map::Arrangement;
use reasons::Refusal;
use record::Fields;

// Which block of a map of n pairs becomes block k of the moved one.
#[inline(always)]
fn came_from(from: Arrangement, n: usize, k: usize) -> usize
    requires few { n ≤ 65535 }
    requires inside { k < 2 * n }
    ensures { result ≡ came_from from n k }
{
    match from {
        Arrangement::Pairs if k < n => 2 * k,
        Arrangement::Pairs => 2 * (k - n) + 1,
        Arrangement::Columns if k % 2 == 0 => k / 2,
        Arrangement::Columns => n + k / 2,
    }
}

// Writes a map at a place, moved into the other arrangement.
#[tactic(auto, using(map::proofs::Moved::came_within))]
fn put_moved(out: &mut [u8], at: usize, from: Arrangement, map: &[u8])
    requires room { at + length map.now ≤ length out.old }
    requires whole { length map.now % 64 ≡ 0 }
    requires few { length map.now ≤ 65535 }
    ensures { out.new ≡ put_at out.old at (moved from map.now) }
{
    let n = map.len() / 64;
    for k in 0..2 * n {
        let start = 32 * came_from(from, n, k);
        write::put_slice(out, at + 32 * k, &map[start..start + 32]);
    }
}

// Writes a record into the front of the output, its maps moved; answers how many bytes it wrote.
#[tactic(auto, using(crate::proofs::Laws::convert_facts))]
fn convert(from: Arrangement, rec: &[u8], out: &mut [u8]) -> Result<u32, Refusal>
    ensures same { numbered result ≡ conversion from rec.now (length out.old) }
    ensures written { out.new ≡ output from rec.now out.old (conversion from rec.now (length out.old)) }
{
    if !record::is_well_shaped(rec) {
        return Err(Refusal::Record);
    }
    let fields = Fields::find(rec);
    if !point::is_point_in(&fields, from) {
        return Err(Refusal::Record);
    }
    if out.len() < rec.len() {
        return Err(Refusal::Output);
    }
    write::put_run(out, 0, rec);
    put_moved(out, fields.at.includes + 3, from, fields.includes());
    put_moved(out, fields.at.witness + 3, from, fields.witness());
    Ok(rec.len() as u32)
}

// From the arrangement before ticket U5: 3 if the record can't be read in it, then 14, or the count.
pub fn pairs_to_columns(rec: &[u8], out: &mut [u8]) -> Result<u32, Refusal>
    ensures same { numbered result ≡ conversion Pairs rec.now (length out.old) }
    ensures written { out.new ≡ output Pairs rec.now out.old (conversion Pairs rec.now (length out.old)) }
{
    convert(Arrangement::Pairs, rec, out)
}

// And back into it.
pub fn columns_to_pairs(rec: &[u8], out: &mut [u8]) -> Result<u32, Refusal>
    ensures same { numbered result ≡ conversion Columns rec.now (length out.old) }
    ensures written { out.new ≡ output Columns rec.now out.old (conversion Columns rec.now (length out.old)) }
{
    convert(Arrangement::Columns, rec, out)
}
