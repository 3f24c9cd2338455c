// One entry of the book: read from the front of a slice, written at a place, and what it is made of.
#![tactic(auto)]

mod point_fields;
mod put;
mod read;
mod status;
mod zeros;

pub use put::put_kept;
pub use read::{Kept, kept_end, known_kept};
pub use status::{Status, dag_point, of_verdict};
pub use zeros::is_zeros;
