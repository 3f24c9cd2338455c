// Whether two reasons are equal.
ghost use Rattle.std.specs.Prelude.{◌≡◌, option_map};
ghost use Rattle.reasons.specs.Code.{reason_of};
ghost use Rattle.rules.specs.Force.{same_reason, same_prev, named_prev};
ghost use Rattle.force_rows.specs.Code.{is_same_as};

use answer::Values;
use reasons::InvalidReason;

// The previous seq_no that a reason names.
fn named_prev(reason: InvalidReason) -> Option<u8>
    ensures { result ≡ named_prev (reason_of reason) }
{
    match reason {
        InvalidReason::BadStickySequence { prev_seq_no, .. } => prev_seq_no,
        _ => None,
    }
}

fn is_same_prev(a: Option<u8>, b: Option<u8>) -> bool
    ensures { result ≡ same_prev a b }
{
    match (a, b) {
        (None, None) => true,
        (Some(m), Some(n)) => m == n,
        _ => false,
    }
}

// Whether the number of two reasons is the same, and all that they name.
fn is_same(a: InvalidReason, b: InvalidReason) -> bool
    ensures { result ≡ same_reason (reason_of a) (reason_of b) }
{
    let x = Values::from(a);
    let y = Values::from(b);
    a.number() == b.number()
        && point::is_same_id(answer::id_of(a), answer::id_of(b))
        && x.map == y.map
        && x.role == y.role
        && x.first == y.first
        && is_same_prev(named_prev(a), named_prev(b))
}

// Whether a reason is that of the last row.
pub(crate) fn is_last(last: Option<InvalidReason>, reason: InvalidReason) -> bool
    ensures { result ≡ is_same_as (option_map reason_of last) (reason_of reason) }
{
    match last {
        Some(other) => is_same(other, reason),
        None => false,
    }
}
