// A quick test: most dependencies are valid, are no link's target or source and not the author's own, and give nothing.
ghost use Rattle.std.specs.Prelude.{◌≡◌, true, ◌&&◌, ◌||◌, ◌+◌, ltb, eqb};
ghost use Rattle.parts.specs.Code.{number};
ghost use Rattle.record.specs.Record.{well_shaped};
ghost use Rattle.schedule.specs.Code.{settings_of};
ghost use Rattle.judge_valid.specs.Code.{point_view_of, first_word, QuickOf, IsQuick};

use crate::brief;
use crate::brief::Brief;
use crate::view::By;
use parts::Id;
use record::Fields;

// What the test asks of the judged point and the settings. Ids are told apart by the first eight bytes of a digest or an author.
#[derive(Clone, Copy)]
pub struct Quick {
    pub before: u32,
    pub author: u64,
    pub proof_target: u64,
    pub proof_source: u64,
    pub trigger_target: u64,
    pub trigger_source: u64,
    pub proof_target_round: u32,
    pub trigger_target_round: u32,
    pub time: u64,
    pub skew: u64,
}

// The first eight bytes of an id.
#[tactic(auto, using(crate::proofs::QuickLaws::first_of))]
fn first_word(id: Id) -> u64
    ensures { result ≡ first_word (number id) }
{
    id.a
}

impl From<&By> for Quick {
    ghost from_gives = { λ by quick. QuickOf (settings_of by.now.conf) (point_view_of by.now.view) quick };

    fn from(by: &By) -> Quick {
        let p = &by.view;
        Quick {
            before: parts::rounds_back(p.id.round, 1),
            author: first_word(p.id.author),
            proof_target: first_word(p.proof.target.digest),
            proof_source: first_word(p.proof.source.digest),
            trigger_target: first_word(p.trigger.target.digest),
            trigger_source: first_word(p.trigger.source.digest),
            proof_target_round: p.proof.target.round,
            trigger_target_round: p.trigger.target.round,
            time: p.time,
            skew: by.conf.clock_skew_millis as u64,
        }
    }
}

// Whether a dependency can be the author's point at the round before.
fn is_own(q: &Quick, b: &Brief) -> bool
    ensures { result ≡ (eqb b.now.round q.now.before && eqb b.now.author q.now.author) }
{
    b.round == q.before && b.author == q.author
}

// Whether it can be a link's target or source.
fn is_linked(q: &Quick, b: &Brief) -> bool
    ensures { result ≡ (eqb b.now.digest q.now.proof_target || (eqb b.now.digest q.now.proof_source
        || (eqb b.now.digest q.now.trigger_target || eqb b.now.digest q.now.trigger_source))) }
{
    b.digest == q.proof_target
        || b.digest == q.proof_source
        || b.digest == q.trigger_target
        || b.digest == q.trigger_source
}

// Whether one of its tops has a greater round than the link's target.
fn is_newer(q: &Quick, b: &Brief) -> bool
    ensures { result ≡ (ltb q.now.proof_target_round b.now.proof_top_round || ltb q.now.trigger_target_round b.now.trigger_top_round) }
{
    q.proof_target_round < b.proof_top_round || q.trigger_target_round < b.trigger_top_round
}

// Whether a dependency's time exceeds the point's by more than the clock skew.
pub fn is_late(time: u64, skew: u64, dependency_time: u64) -> bool
    ensures { result ≡ ltb (time + skew) dependency_time }
{
    time.saturating_add(skew) < dependency_time
}

// Whether a valid dependency gives nothing for sure: false says nothing of it.
pub fn is_quick(q: &Quick, rec: &[u8]) -> bool
    requires { well_shaped rec.now ≡ true }
    ensures { result ≡ true → IsQuick q.now rec.now }
{
    let b = &brief::brief_of(&Fields::find(rec));
    !(is_own(q, b) || is_linked(q, b) || is_newer(q, b) || is_late(q.time, q.skew, b.time))
}
