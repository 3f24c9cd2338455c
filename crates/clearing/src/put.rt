// The 69 bytes of what a point waits for.
ghost use Rattle.std.specs.Prelude.{◌≡◌, ◌≤◌, length};
ghost use Rattle.parts.specs.Bytes.{put_at};
ghost use Rattle.rules.specs.Clearing.{clearing_bytes};
ghost use Rattle.clearing.specs.Code.{clearing_in};

use crate::Clearing;

// Writes the 69 bytes.
#[tactic(auto, using(write::proofs::Laws::put_put))]
pub fn put_clearing(out: &mut [u8], x: Clearing)
    requires { 69 ≤ length out.old }
    ensures { out.new ≡ put_at out.old 0 (clearing_bytes (clearing_in x)) }
{
    match x {
        Clearing::NotWaiting => write::put_slice(out, 0, &[0; 69]),
        Clearing::NoSingleMark => {
            write::put_slice(out, 0, &[1]);
            write::put_slice(out, 1, &[0; 68]);
        }
        Clearing::ClearedBy(id) => {
            write::put_slice(out, 0, &[2]);
            point::put_point_id(out, 1, id);
        }
    }
}
