// The rising order of rows that came in any order, as positions: nothing of the rows is moved or copied.
#![tactic(auto)]

ghost use Rattle.std.specs.Prelude.{◌≡◌, ◌+◌, ◌*◌, ◌≤◌, ◌<◌, true, length, take, drop, ◌++◌, ◌∷◌};
ghost use Rattle.base.specs.Base.{tabulate};
ghost use Rattle.map.specs.Rows.{peer_at, rising};
ghost use Rattle.map.specs.Risen.{itself};
ghost use Rattle.row_order.specs.Order.{Rising, PlaceOf, OrderOf};

use std::cmp::Ordering;

// No map has more rows.
pub const MOST_ROWS: usize = 255;

// The positions from the first on, in their own order.
fn positions() -> [u8; MOST_ROWS]
    ensures { result ≡ tabulate itself 255 0 }
{
    let mut order = [0; MOST_ROWS];
    for i in 0..MOST_ROWS {
        order[i] = i as u8;
    }
    order
}

// How many of n rows rise from the first on, one after the other.
fn rising_front(rows: &[u8], n: usize) -> usize
    requires { 32 * n ≤ length rows.now }
    ensures within { result ≤ n }
    ensures rise { rising (tabulate (peer_at rows.now) result 0) ≡ true }
{
    for i in 1..n {
        if !map::compare_rows(rows, i - 1, rows, i).is_lt() {
            return i;
        }
    }
    n
}

// Where the peer of a row belongs among rows whose peers rise, by halving; none where it is among them.
fn place(rows: &[u8], order: &[u8], i: usize) -> Option<usize>
    requires order_rises { Rising rows.now order.now }
    requires row_within { 32 * i + 32 ≤ length rows.now }
    ensures { PlaceOf rows.now order.now i result }
{
    let mut lo = 0;
    let mut hi = order.len();
    while lo < hi {
        let mid = lo + (hi - lo) / 2;
        match map::compare_rows(rows, order[mid] as usize, rows, i) {
            Ordering::Equal => return None,
            Ordering::Less => lo = mid + 1,
            Ordering::Greater => hi = mid,
        }
    }
    Some(lo)
}

// Puts row i, the next, at a place among those before it.
fn put(order: &mut [u8; MOST_ROWS], at: usize, i: usize)
    requires { (at ≤ i) × (i < 255) }
    ensures { take (i + 1) order.new ≡ take at (take i order.old) ++ i ∷ drop at (take i order.old) }
{
    order.copy_within(at..i, at + 1);
    order[at] = i as u8;
}

// The positions of n rows in the order of their peers, before others; none where a peer is there twice. Rows that rise are compared each
// with the next; each row after those is put in its place by halving.
pub fn rising_order(rows: &[u8], n: usize) -> Option<[u8; MOST_ROWS]>
    requires rows_within { 32 * n ≤ length rows.now }
    requires few { n ≤ 255 }
    ensures { OrderOf rows.now n result }
{
    let mut order = positions();
    for i in rising_front(rows, n)..n {
        let at = place(rows, &order[..i], i)?;
        put(&mut order, at, i);
    }
    Some(order)
}
