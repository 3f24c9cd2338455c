// Judges a point by the lists that a book builds of its entries. The lists are never stored: each dependency is looked up, and
// judged at once.
#![tactic(auto)]

mod direct;
mod look;

ghost use Rattle.std.specs.Prelude.{◌≡◌};
ghost use Rattle.point.specs.Code.{link_of};
ghost use Rattle.point.specs.Said.{said};
ghost use Rattle.schedule.specs.Code.{settings_of};
ghost use Rattle.reasons.specs.Code.{verdict_of};
ghost use Rattle.judge_step.specs.Code.{judging_of};
ghost use Rattle.books.specs.Lists.{is_trigger_first};
ghost use Rattle.book_judge.specs.Code.{TargetJudged, TargetsJudged, BookJudged};

use judge_step::Judging;
use judge_valid::{By, PointView};
pub use look::IndexedBook;
use point::{AnchorLink, AnchorStageRole, Point, PointInfo};
use reasons::Verdict;
use schedule::Settings;

// Judges the target of a link, if it is indirect.
fn judge_target(
    by: &By,
    role: AnchorStageRole,
    link: AnchorLink,
    book: &IndexedBook,
    so_far: Judging,
) -> Judging
    ensures { TargetJudged (settings_of by.now.conf) by.now.view role (link_of link)
        book.now.bytes.now book.now.index.now (judging_of so_far) (judging_of result) }
{
    let AnchorLink::Indirect(indirect) = link else {
        return so_far;
    };
    let entry = book.lookup(&by.view, indirect.to);
    let gives = judge_step::indirect_gives(by, role, indirect.through, &entry);
    judge_step::with_indirect(so_far, &gives)
}

// Whether the trigger link's target has the higher round.
fn is_trigger_first(proof: AnchorLink, trigger: AnchorLink) -> bool
    ensures { result ≡ is_trigger_first (link_of proof) (link_of trigger) }
{
    match (proof, trigger) {
        (AnchorLink::Indirect(first), AnchorLink::Indirect(second)) => {
            first.to.round < second.to.round
        }
        _ => false,
    }
}

// Judges the indirect entries: the target with the higher round first, the proof's on a tie.
fn judge_targets(by: &By, info: PointInfo, book: &IndexedBook, so_far: Judging) -> Judging
    ensures { TargetsJudged (settings_of by.now.conf) by.now.view info
        book.now.bytes.now book.now.index.now (judging_of so_far) (judging_of result) }
{
    let proof = info.anchor_proof;
    let trigger = info.anchor_trigger;
    if is_trigger_first(proof, trigger) {
        let first = judge_target(by, AnchorStageRole::Trigger, trigger, book, so_far);
        return judge_target(by, AnchorStageRole::Proof, proof, book, first);
    }
    let first = judge_target(by, AnchorStageRole::Proof, proof, book, so_far);
    judge_target(by, AnchorStageRole::Trigger, trigger, book, first)
}

// Judges a point whose list is needed.
pub fn judge_book(conf: Settings, required: bool, point: &Point, book: &IndexedBook) -> Verdict
    ensures { BookJudged (settings_of conf) required (said point.now) book.now.bytes.now book.now.index.now (verdict_of result) }
{
    let by = By {
        conf,
        required,
        view: PointView::from(point),
    };
    let direct = direct::judge_direct_list(&by, point, book);
    judge_list::verdict(judge_targets(&by, point.info, book, direct))
}
