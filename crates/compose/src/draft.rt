// A point as it is handed over to be written, and what is tested of it.
ghost use Rattle.std.specs.Prelude.{◌≡◌, ◌&&◌, ◌||◌, ◌+◌, ◌*◌, ◌≤◌, true, length, get_or, leb, eqb, is_some};
ghost use Rattle.base.specs.Base.{is_some_and};
ghost use Rattle.point.specs.Point.{in_domain};
ghost use Rattle.point.specs.Reading.{read_link, read_role};
ghost use Rattle.compose.specs.Draft.{are_rows, are_maps, handed_over, link_part, role_part};
ghost use Rattle.compose.specs.Code.{draft_of, OrdersOf, record_length};

use row_order::MOST_ROWS;

// Its maps may come in any order. A link is its kind, its map, a peer and a target, of which a direct one's is not read; of the role's
// number and flag nothing is read but of a proof.
#[derive(Clone, Copy)]
pub struct Draft<'a> {
    pub id: &'a [u8; 68],
    pub payload_len: u32,
    pub payload_bytes: u32,
    pub includes: &'a [u8],
    pub witness: &'a [u8],
    pub evidence: &'a [u8],
    pub anchor_proof: &'a [u8; 102],
    pub anchor_trigger: &'a [u8; 102],
    pub role: u8,
    pub seq_no: u8,
    pub is_last: u8,
    pub time: u64,
    pub anchor_time: u64,
}

// The positions of the rows of each map, in the order in which they are written.
#[derive(Drop)]
pub struct Orders {
    pub includes: [u8; MOST_ROWS],
    pub witness: [u8; MOST_ROWS],
    pub evidence: [u8; MOST_ROWS],
}

// Whether a map is whole rows, and not too many.
fn are_rows(map: &[u8], width: usize) -> bool
    requires { 1 ≤ width }
    ensures { result ≡ are_rows width map.now }
{
    map.len() % width == 0 && map.len() / width <= MOST_ROWS
}

// Whether a link's kind and map are known.
#[tactic(auto, using(crate::proofs::Tested::link_some))]
fn is_link(link: &[u8; 102]) -> bool
    ensures { result ≡ is_some (read_link (link_part link.now)) }
{
    link[0] <= 1 && link[1] <= 1
}

// As much of a link as is read.
pub fn link_part(link: &[u8; 102]) -> &[u8]
    ensures same { result.now ≡ link_part link.now }
    ensures short { length result.now ≤ 102 }
{
    if link[0] == 0 { &link[..34] } else { link }
}

impl Draft<'_> {
    pub fn are_maps(&self) -> bool
        ensures { result ≡ are_maps (draft_of self.now) }
    {
        are_rows(self.includes, 64) && are_rows(self.witness, 64) && are_rows(self.evidence, 32)
    }

    #[tactic(auto, using(crate::proofs::Tested::role_some))]
    fn is_role(&self) -> bool
        ensures { result ≡ is_some (read_role (role_part (draft_of self.now))) }
    {
        self.role <= 3 && (self.role != 1 || self.is_last <= 1)
    }

    // Whether links and role are known, and round and times in the domain.
    #[tactic(auto, using(crate::proofs::Tested::domain_some))]
    pub fn is_in_domain(&self) -> bool
        ensures { result ≡ is_some_and (handed_over (draft_of self.now)) in_domain }
    {
        let id = self.id;
        let round = parts::u32_at(id, 0);
        is_link(self.anchor_proof)
            && is_link(self.anchor_trigger)
            && self.is_role()
            && point::are_in_domain(round, self.time, self.anchor_time)
    }

    // The orders of the three maps, or none where one has a peer twice.
    #[tactic(auto, using(crate::proofs::Rows::twice))]
    pub fn orders(&self) -> Option<Orders>
        requires { are_maps (draft_of self.now) ≡ true }
        ensures { OrdersOf (draft_of self.now) result }
    {
        Some(Orders {
            includes: row_order::rising_order(self.includes, self.includes.len() / 64)?,
            witness: row_order::rising_order(self.witness, self.witness.len() / 64)?,
            evidence: row_order::rising_order(self.evidence, self.evidence.len() / 32)?,
        })
    }

    fn role_len(&self) -> usize
        ensures { result ≡ length (role_part (draft_of self.now)) }
    {
        if self.role == 1 { 3 } else { 1 }
    }

    // How long the record is: nine heads, 92 bytes of id, payload numbers and times, and the rest as it comes.
    pub fn record_len(&self) -> usize
        requires { are_maps (draft_of self.now) ≡ true }
        ensures same { result ≡ record_length (draft_of self.now) }
        ensures few { result ≤ 41126 }
    {
        let maps = self.includes.len() + self.witness.len() + self.evidence.len();
        let links = link_part(self.anchor_proof).len() + link_part(self.anchor_trigger).len();
        27 + 92 + maps + links + self.role_len()
    }
}
