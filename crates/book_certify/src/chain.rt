// Chains the entries by their depths.
ghost use Rattle.std.specs.Prelude.{ℕ, ◌≡◌, ◌+◌, ◌<◌, ◌≤◌, get_or};
ghost use Rattle.id_index.specs.Code.{count_of, Places};
ghost use Rattle.book_certify.specs.Code.{Chained, SameReached};

use crate::Walk;
use crate::spread::Spread;

impl Walk {
    // Chains one more entry, if it lies at or below the round of the previous point and within the history.
    fn chain_next(&mut self, by: &Spread, j: usize)
        requires places { Places by.now.book.now by.now.index.now }
        requires j_bound { j < count_of by.now.index.now }
        requires chained { Chained by.now.book.now by.now.index.now by.now.prev.round
            by.now.conf.commit_history_rounds j self.old }
        ensures chained_2 { Chained by.now.book.now by.now.index.now by.now.prev.round
            by.now.conf.commit_history_rounds (j + 1) self.new }
        ensures same_reached { SameReached self.old self.new }
    {
        let top = by.prev.round;
        let round = by.round_of(j);
        if top < round {
            return;
        }
        let depth = (top - round) as usize;
        if usize::from(by.conf.commit_history_rounds) < depth {
            return;
        }
        self.links[j] = self.heads[depth];
        self.heads[depth] = (j + 1) as u16;
    }

    pub fn chain_all(&mut self, by: &Spread)
        requires places { Places by.now.book.now by.now.index.now }
        requires unlinked { (d : ℕ) → d ≤ by.now.conf.commit_history_rounds → get_or self.old.heads d 0 ≡ 0 }
        ensures chained { Chained by.now.book.now by.now.index.now by.now.prev.round
            by.now.conf.commit_history_rounds (count_of by.now.index.now) self.new }
        ensures same_reached { SameReached self.old self.new }
    {
        for j in 0..by.index.count() {
            self.chain_next(by, j);
        }
    }
}
