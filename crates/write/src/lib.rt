// Ids and slices written into a lent slice.
#![tactic(auto)]

ghost use Rattle.std.specs.Prelude.{◌≡◌, ◌+◌, ◌≤◌, length};
ghost use Rattle.parts.specs.Bytes.{little_bytes, big_bytes, put_at};
ghost use Rattle.parts.specs.Code.{number};

use parts::Id;

// Writes the bytes of a slice at a place. In the library for C the slice's length is known where this is called, so that the copy is a
// few stores, or the slice is an array of the caller's own.
#[tactic(auto, unfolding(parts::specs::Bytes::put_at))]
pub fn put_slice(out: &mut [u8], at: usize, src: &[u8])
    requires { at + length src.now ≤ length out.old }
    ensures { out.new ≡ put_at out.old at src.now }
{
    out[at..at + src.len()].copy_from_slice(src);
}

// The same of any slice. By index, since `copy_from_slice` may then call `memmove`, which the library for C doesn't ask of its hosts.
pub fn put_run(out: &mut [u8], at: usize, src: &[u8])
    requires { at + length src.now ≤ length out.old }
    ensures { out.new ≡ put_at out.old at src.now }
{
    for j in 0..src.len() {
        out[at + j] = src[j];
    }
}

// Writes the 32 bytes of an id at a place.
pub fn put_id(out: &mut [u8], at: usize, id: Id)
    requires { at + 32 ≤ length out.old }
    ensures { out.new ≡ put_at out.old at (big_bytes 32 (number id)) }
{
    put_slice(out, at, &id.a.to_be_bytes());
    put_slice(out, at + 8, &id.b.to_be_bytes());
    put_slice(out, at + 16, &id.c.to_be_bytes());
    put_slice(out, at + 24, &id.d.to_be_bytes());
}

// Writes the four bytes of a number at a place, the first lowest.
#[tactic(auto, using(parts::proofs::Laws::write_little))]
pub fn put_u32(out: &mut [u8], at: usize, x: u32)
    requires { at + 4 ≤ length out.old }
    ensures { out.new ≡ put_at out.old at (little_bytes 4 x) }
{
    put_slice(out, at, &x.to_le_bytes());
}
