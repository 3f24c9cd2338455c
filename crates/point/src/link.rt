// Anchor links: the port of link.rs.
ghost use Rattle.std.specs.Prelude.{◌≡◌};
ghost use Rattle.parts.specs.Code.{number};
ghost use Rattle.point.specs.Point.{is_wave_far_enough, through, through_round, through_peer, point_map, target_round_of};
ghost use Rattle.point.specs.Code.{through_of, link_of};

use crate::data::PointMap;
use crate::info::PointId;
use parts::Id;

// Of two cases, neither of which is none or a failure, as in the Rust; so is AnchorLink.
#[derive(Clone, Copy, PartialEq, Eq)]
pub enum Through {
    Includes(Id),
    Witness(Id),
}

#[derive(Clone, Copy, PartialEq, Eq)]
pub struct IndirectLink {
    pub to: PointId,
    pub through: Through,
}

#[derive(Clone, Copy, PartialEq, Eq)]
pub enum AnchorLink {
    Direct(Through),
    Indirect(IndirectLink),
}

impl Through {
    pub fn peer(self) -> Id
        ensures { number result ≡ through_peer (through_of self) }
    {
        match self {
            Through::Includes(peer) | Through::Witness(peer) => peer,
        }
    }

    // The round of the points of the map: r-1 of includes, r-2 of witness.
    pub fn round(self, current_round: u32) -> u32
        ensures { result ≡ through_round (through_of self) current_round }
    {
        match self {
            Through::Includes(_) => parts::rounds_back(current_round, 1),
            Through::Witness(_) => parts::rounds_back(current_round, 2),
        }
    }
}

// The map that a link goes through.
impl From<Through> for PointMap {
    ghost from_gives = { λ through map. map ≡ point_map (through_of through) };

    fn from(through: Through) -> PointMap {
        match through {
            Through::Includes(_) => PointMap::Includes,
            Through::Witness(_) => PointMap::Witness,
        }
    }
}

impl AnchorLink {
    pub fn through(self) -> Through
        ensures { through_of result ≡ through (link_of self) }
    {
        match self {
            AnchorLink::Direct(t) => t,
            AnchorLink::Indirect(link) => link.through,
        }
    }

    // The round of the link's target.
    pub fn target_round(self, current_round: u32) -> u32
        ensures { result ≡ target_round_of current_round (link_of self) }
    {
        match self {
            AnchorLink::Direct(through) => through.round(current_round),
            AnchorLink::Indirect(link) => link.to.round,
        }
    }

    pub fn is_wave_far_enough(self, current_round: u32) -> bool
        ensures { result ≡ is_wave_far_enough current_round (link_of self) }
    {
        match self {
            AnchorLink::Direct(_) => false,
            AnchorLink::Indirect(link) => {
                parts::WAVE_ROUNDS <= parts::rounds_back(current_round, link.to.round)
            }
        }
    }
}
