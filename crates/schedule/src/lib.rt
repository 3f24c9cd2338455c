// Settings and schedules, by value.
#![tactic(auto)]

mod peer_schedule;
mod schedule;
mod settings;

pub use peer_schedule::PeerSchedule;
pub use schedule::{LAST_KNOWN, SPAN, Schedule, Span, read_peer_schedule, read_schedule};
pub use settings::{Settings, read_settings};
