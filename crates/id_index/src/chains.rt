// Ids in chains, one for each bucket.
ghost use Rattle.std.specs.Prelude.{◌≡◌, ◌+◌, ◌≤◌, ◌<◌};
ghost use Rattle.parts.specs.Limits.{most_kept};
ghost use Rattle.point.specs.Code.{point_id_of};
ghost use Rattle.id_index.specs.Code.{count_of, SameFront, Places, Noted, Chains, InChain, Linked, Chained, Once};

use crate::{Index, ids};
use point::PointId;

const LONGEST_CHAIN: usize = 16;

impl Index {
    // The number of an id among the first n, by the chain of its bucket, or else how many ids the chain has. A `while`: it ends, since
    // each link lies below the one before. `iter::successors` counts as endless, so that a `for` over it would take a `take`, and
    // a closure with a clause for where it may be called.
    #[tactic(auto, using(crate::proofs::Laws::search_next))]
    pub(crate) fn walk_chain(&self, s: &[u8], n: usize, id: PointId) -> Result<usize, usize>
        requires { Places s.now self.now × ((n ≤ count_of self.now) × Chains s.now self.now n) }
        ensures { InChain s.now self.now n (point_id_of id) result }
    {
        let mut link = self.heads[ids::bucket(id)];
        let mut passed = 0;
        while let Some(j) = usize::from(link).checked_sub(1) {
            if ids::has_id(s, self.place_at(j), id) {
                return Ok(j);
            }
            link = self.links[j];
            passed += 1;
        }
        Err(passed)
    }

    // Makes an id the last of its bucket.
    fn link(&mut self, j: usize, bucket: usize)
        requires { (j < most_kept) × (bucket < most_kept) }
        ensures { Linked self.old j bucket self.new }
    {
        self.links[j] = self.heads[bucket];
        self.heads[bucket] = (j + 1) as u16;
    }

    // Chains one more id, unless it stands before or its chain is long.
    #[tactic(auto, using(crate::proofs::Laws::one_chained, crate::proofs::Laws::one_once))]
    fn chain_next(&mut self, s: &[u8], j: usize) -> bool
        requires places { Places s.now self.old × (j < count_of self.old) }
        requires chains { Chains s.now self.old j × Once s.now self.old j }
        ensures same_front { SameFront self.old self.new }
        ensures chained { Chained s.now self.new (j + 1) result }
    {
        let id = point::point_id_at(s, self.place_at(j) + 3);
        let Err(passed) = self.walk_chain(s, j, id) else {
            return false;
        };
        if LONGEST_CHAIN <= passed {
            return false;
        }
        self.link(j, ids::bucket(id));
        true
    }

    // Chains all ids, unless one stands twice or a chain is long. `sort` is the same loop over another step. With `all`, or in one function
    // for both, the step would be a closure that changes the index, whose clauses would be longer than this.
    pub(crate) fn chain(&mut self, s: &[u8]) -> bool
        requires { Noted s.now self.old }
        ensures same_front { SameFront self.old self.new }
        ensures chained { Chained s.now self.new (count_of self.old) result }
    {
        for j in 0..self.count {
            if !self.chain_next(s, j) {
                return false;
            }
        }
        true
    }
}
