// What a point record says: PointInfo by value, and what data.rs, link.rs and info.rs ask of it. Its maps stay where
// they are, as parts of the record.
#![tactic(auto)]

mod data;
mod front;
mod info;
mod link;
mod put;
mod read;

pub use data::{AnchorStageRole, PointMap, PointRole, StickyAnchors};
pub use front::{is_point, is_point_in, is_record_in_domain};
pub use info::{
    AnchorView, INCLUDES, NO_POINT, Point, PointId, PointInfo, are_in_domain, is_same_id, pair_id,
};
pub use link::{AnchorLink, IndirectLink, Through};
pub use put::put_point_id;
pub use read::{known_point, point_id_at, read_point, read_shaped, through_at};
