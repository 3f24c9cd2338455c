// One depth of the walk.
ghost use Rattle.std.specs.Prelude.{◌≤◌, ◌<◌};
ghost use Rattle.point.specs.Code.{point_id_of};
ghost use Rattle.schedule.specs.Code.{settings_of};
ghost use Rattle.id_index.specs.Code.{count_of};
ghost use Rattle.book_certify.specs.Code.{rounds_of, Chained, Passed, DepthReached};
ghost use Rattle.book_certify.specs.Spread.{IsReadBy};

use crate::Walk;
use crate::spread::{Deps, Spread};

impl Walk {
    // Reaches entries of a depth from those above it that name them in a map, until all of it are reached or none is left to go
    // on from. Says whether all are. Two chains are followed, each at its own pace: a `while`, as no iterator says that.
    fn reach_from(&mut self, by: &Spread, depth: usize, deps: Deps) -> bool
        requires read { IsReadBy by.now }
        requires chained { Chained by.now.book.now by.now.index.now by.now.prev.round
            by.now.conf.commit_history_rounds (count_of by.now.index.now) self.old }
        requires depth_least { rounds_of deps ≤ depth }
        requires depth_bound { depth ≤ by.now.conf.commit_history_rounds }
        requires in_heads { depth < 256 }
        ensures { Passed (settings_of by.now.conf) by.now.book.now by.now.index.now
            (point_id_of by.now.prev) depth deps self.old self.new result }
    {
        let mut left = self.heads[depth];
        let mut above = self.heads[depth - deps.rounds()];
        while let Some(j) = usize::from(left).checked_sub(1) {
            if self.reached[j] {
                left = self.links[j];
                continue;
            }
            let Some(e) = usize::from(above).checked_sub(1) else {
                return false;
            };
            self.take(by, e, deps);
            above = self.links[e];
        }
        true
    }

    // Reaches the entries of a depth, if it has any: by the includes of those above it, and where some are left by the witness of
    // those two above.
    pub fn reach_depth(&mut self, by: &Spread, depth: usize)
        requires read { IsReadBy by.now }
        requires chained { Chained by.now.book.now by.now.index.now by.now.prev.round
            by.now.conf.commit_history_rounds (count_of by.now.index.now) self.old }
        requires depth_least { 1 ≤ depth }
        requires depth_bound { depth ≤ by.now.conf.commit_history_rounds }
        requires in_heads { depth < 256 }
        ensures { DepthReached (settings_of by.now.conf) by.now.book.now by.now.index.now
            (point_id_of by.now.prev) depth self.old self.new }
    {
        if self.heads[depth] == 0 {
            return;
        }
        if self.reach_from(by, depth, Deps::Includes) {
            return;
        }
        if depth < 2 {
            return;
        }
        self.reach_from(by, depth, Deps::Witness);
    }
}
