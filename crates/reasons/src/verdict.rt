// The verdict on a point.
ghost use Rattle.std.specs.Prelude.{◌≡◌};
ghost use Rattle.reasons.specs.Code.{verdict_of};
ghost use Rattle.reasons.specs.Verdict.{of_error};

use crate::ill_formed::{IllFormedReason, UninitVset, VerifyError};
use crate::invalid::{InvalidDependency, InvalidReason};

#[derive(Clone, Copy)]
pub enum Verdict {
    Fail(UninitVset),
    IllFormed(IllFormedReason),
    Invalid(InvalidReason),
    TransInvalid(InvalidDependency),
    Valid,
}

impl From<VerifyError> for Verdict {
    ghost from_gives = { λ error verdict. verdict_of verdict ≡ of_error error };

    fn from(error: VerifyError) -> Verdict {
        match error {
            VerifyError::Fail(u) => Verdict::Fail(u),
            VerifyError::IllFormed(reason) => Verdict::IllFormed(reason),
        }
    }
}
