// Damaged copies of a record: each byte changed in two ways, each truncation, and one byte 0 more after.
ghost use Rattle.std.specs.Prelude.{◌<◌, length};

use crate::tally::Tally;

// With another byte at a place.
fn replace(t: &mut Tally, rec: &mut [u8], i: usize, byte: u8)
    requires { i < length rec.old }
{
    let old = rec[i];
    rec[i] = byte;
    t.record(rec);
    rec[i] = old;
}

// With the next number and with every bit turned at each place.
fn change_each(t: &mut Tally, rec: &mut [u8]) {
    for i in 0..rec.len() {
        let byte = rec[i];
        replace(t, rec, i, byte.wrapping_add(1));
        replace(t, rec, i, !byte);
    }
}

// Counts all damaged copies of the record that is all bytes of a slice but the last.
pub fn damage(t: &mut Tally, bytes: &mut [u8]) {
    let Some((last, rec)) = bytes.split_last_mut() else {
        return;
    };
    change_each(t, rec);
    for k in 0..rec.len() {
        t.record(&rec[..k]);
    }
    *last = 0;
    t.record(bytes);
}
