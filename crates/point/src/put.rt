// A point's id written into a lent slice.
ghost use Rattle.std.specs.Prelude.{◌≡◌, ◌+◌, ◌≤◌, length};
ghost use Rattle.parts.specs.Bytes.{put_at};
ghost use Rattle.point.specs.Code.{point_id_of};
ghost use Rattle.point.specs.Written.{id_bytes};

use crate::info::PointId;

// Writes the 68 bytes of an id at a place.
pub fn put_point_id(out: &mut [u8], at: usize, id: PointId)
    requires { at + 68 ≤ length out.old }
    ensures { out.new ≡ put_at out.old at (id_bytes (point_id_of id)) }
{
    write::put_u32(out, at, id.round);
    write::put_id(out, at + 4, id.digest);
    write::put_id(out, at + 36, id.author);
}
