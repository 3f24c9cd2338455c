// The line that an answer gives.
ghost use Rattle.std.specs.Prelude.{◌≡◌};
ghost use Rattle.reasons.specs.Code.{verdict_of};
ghost use Rattle.judge.specs.Code.{judge_answer_of};
ghost use Rattle.tally_feed.specs.Tally.{verdict_line, line_of, refused_line};

use reasons::{Refusal, Verdict};
use tally_line::Line;

// No From, since a line has its place and round too. They stay apart: each is a field of the line that is made here.
fn of_verdict(place: u64, round: u32, v: Verdict) -> Line
    ensures { result ≡ verdict_line place round (verdict_of v) }
{
    match v {
        Verdict::Fail(_) => judged(place, round, b'F', 0),
        Verdict::IllFormed(reason) => judged(place, round, b'L', reason.number()),
        Verdict::Invalid(reason) => judged(place, round, b'I', reason.number()),
        Verdict::TransInvalid(_) => judged(place, round, b'T', 0),
        Verdict::Valid => judged(place, round, b'V', 0),
    }
}

fn judged(place: u64, round: u32, letter: u8, reason: u8) -> Line
    ensures { result ≡ record { place = place; round = round; letter = letter; reason = reason; number = 0 } }
{
    Line {
        place,
        round,
        letter,
        reason,
        number: 0,
    }
}

// The line of a point that was refused.
pub fn refused(place: u64, round: u32, number: u8) -> Line
    ensures { result ≡ refused_line place round number }
{
    Line {
        place,
        round,
        letter: b'-',
        reason: 0,
        number,
    }
}

pub fn line_of(place: u64, round: u32, answer: Result<Verdict, Refusal>) -> Line
    ensures { result ≡ line_of place round (judge_answer_of answer) }
{
    match answer {
        Err(refusal) => refused(place, round, refusal.number()),
        Ok(v) => of_verdict(place, round, v),
    }
}
