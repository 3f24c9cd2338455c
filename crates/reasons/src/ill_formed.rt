// What verification finds: IllFormedReason, VerifyError and StructureIssue.
ghost use Rattle.std.specs.Prelude.{◌≡◌, ◌&&◌, leb};
ghost use Rattle.reasons.specs.IllFormed.{ill_formed_number};
ghost use Rattle.reasons.specs.declared.ill_formed.IllFormedReason.TheVariants.{Structure};
ghost use Rattle.reasons.specs.declared.ill_formed.VerifyError.TheVariants.{IllFormed};

use parts::PeerCount;
use point::{AnchorStageRole, PointMap};

#[derive(Clone, Copy)]
pub enum StructureIssue {
    ExpectedGenesis(bool),
    BadGenesisPrevPoint,
    AuthorInMap(PointMap),
    TriggerBadProofLink,
    Link {
        role: AnchorStageRole,
        map: PointMap,
    },
    AnchorTime,
    NoPrevPoint,
}

// The Rust's AfterLoadFromDb and EvidenceSigError, numbers 1 and 2, are never given by verifying or judging: they have no
// case here.
// The unknown peers themselves stand in the peer buffer; the reason has their count. No map and no set has over 255 peers.
#[derive(Clone, Copy)]
pub enum IllFormedReason {
    BeforeGenesis,
    UnknownAuthor,
    FalseGenesis,
    TooLargePayload(u32),
    Structure(StructureIssue),
    TooManyStickyAnchors(u8),
    BadLastStickyFlag,
    LinksAcrossGenesis,
    MustBeEmpty(PointMap),
    UnknownPeers {
        unknown: u8,
        map: PointMap,
    },
    UnknownPeerInAnchorLink(AnchorStageRole),
    LackOfPeers {
        len: u8,
        total: PeerCount,
        map: PointMap,
    },
    NotRegular,
    BadWaveLink(bool),
}

// A peer set of a length that verification can't use, at a round, for a map.
#[derive(Clone, Copy)]
pub struct UninitVset {
    pub len: u8,
    pub round: u32,
    pub map: PointMap,
}

// As in verifier.rs, where both cases are errors.
#[derive(Clone, Copy)]
pub enum VerifyError {
    Fail(UninitVset),
    IllFormed(IllFormedReason),
}

impl From<IllFormedReason> for VerifyError {
    ghost from_gives = { λ reason e. e ≡ IllFormed reason };

    fn from(reason: IllFormedReason) -> VerifyError {
        VerifyError::IllFormed(reason)
    }
}

impl From<StructureIssue> for VerifyError {
    ghost from_gives = { λ issue e. e ≡ IllFormed (Structure issue) };

    fn from(issue: StructureIssue) -> VerifyError {
        VerifyError::IllFormed(IllFormedReason::Structure(issue))
    }
}

// What Verifier::check_ill_formed finds: a round outside the schedule's horizon, a fault, or sound; then whether regular points are required.
// No Option<Result<bool, _>>, which is no plainer: judging refuses at the first and has a verdict at the second, so neither is an error of the
// other, and each of the three is asked by its name.
#[derive(Clone, Copy)]
pub enum WaveChecked {
    Horizon,
    IllFormed(IllFormedReason),
    Sound(bool),
}

// Whether a number counts a reason of IllFormedReason. Lists and books carry it by its number alone.
pub fn is_ill_formed(number: u8) -> bool
    ensures { result ≡ (leb 1 number && leb number 16) }
{
    (1..=16).contains(&number)
}

impl IllFormedReason {
    pub fn number(self) -> u8
        ensures { result ≡ ill_formed_number self }
    {
        match self {
            IllFormedReason::BeforeGenesis => 3,
            IllFormedReason::UnknownAuthor => 4,
            IllFormedReason::FalseGenesis => 5,
            IllFormedReason::TooLargePayload(_) => 6,
            IllFormedReason::Structure(_) => 7,
            IllFormedReason::TooManyStickyAnchors(_) => 8,
            IllFormedReason::BadLastStickyFlag => 9,
            IllFormedReason::LinksAcrossGenesis => 10,
            IllFormedReason::MustBeEmpty(_) => 11,
            IllFormedReason::UnknownPeers { .. } => 12,
            IllFormedReason::UnknownPeerInAnchorLink(_) => 13,
            IllFormedReason::LackOfPeers { .. } => 14,
            IllFormedReason::NotRegular => 15,
            IllFormedReason::BadWaveLink(_) => 16,
        }
    }
}
