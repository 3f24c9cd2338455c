// Roles and maps of a point: the port of data.rs.
ghost use Rattle.std.specs.Prelude.{◌≡◌, option_map};
ghost use Rattle.point.specs.Point.{is_anchor_proof, is_anchor_trigger, is_anchor_stage, requires_prev_point, sticky_anchors};
ghost use Rattle.point.specs.Code.{sticky_of};

// Evidence is at r, includes at r-1, witness at r-2.
#[derive(Clone, Copy, PartialEq, Eq)]
pub enum PointMap {
    Evidence,
    Includes,
    Witness,
}

// Of two cases, neither of which is none or a failure, as in the Rust.
#[derive(Clone, Copy, PartialEq, Eq)]
pub enum AnchorStageRole {
    Proof,
    Trigger,
}

#[derive(Clone, Copy, PartialEq, Eq)]
pub enum PointRole {
    Regular,
    AnchorProof { seq_no: u8, is_last: bool },
    AnchorTrigger,
    Genesis,
}

// A proof's place in its sequence. Whether it is the last is the Rust's own field: a record says it beside the number, and verification
// asks whether both agree.
#[derive(Clone, Copy, PartialEq, Eq)]
pub struct StickyAnchors {
    pub seq_no: u8,
    pub is_last: bool,
}

impl PointRole {
    pub fn sticky_anchors(self) -> Option<StickyAnchors>
        ensures { option_map sticky_of result ≡ sticky_anchors self }
    {
        match self {
            PointRole::AnchorProof { seq_no, is_last } => Some(StickyAnchors { seq_no, is_last }),
            PointRole::Regular | PointRole::AnchorTrigger | PointRole::Genesis => None,
        }
    }

    pub fn is_anchor_proof(self) -> bool
        ensures { result ≡ is_anchor_proof self }
    {
        matches!(self, PointRole::AnchorProof { .. } | PointRole::Genesis)
    }

    pub fn is_anchor_trigger(self) -> bool
        ensures { result ≡ is_anchor_trigger self }
    {
        match self {
            PointRole::Regular => false,
            PointRole::AnchorProof { seq_no, .. } => 0 < seq_no,
            PointRole::AnchorTrigger | PointRole::Genesis => true,
        }
    }

    pub fn is_anchor_stage(self, role: AnchorStageRole) -> bool
        ensures { result ≡ is_anchor_stage role self }
    {
        match role {
            AnchorStageRole::Proof => self.is_anchor_proof(),
            AnchorStageRole::Trigger => self.is_anchor_trigger(),
        }
    }

    pub fn requires_prev_point(self) -> bool
        ensures { result ≡ requires_prev_point self }
    {
        matches!(
            self,
            PointRole::AnchorProof { .. } | PointRole::AnchorTrigger
        )
    }
}
