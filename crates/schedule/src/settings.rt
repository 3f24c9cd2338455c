// Settings of a network: what mempool_config.rs holds that judging asks for.
ghost use Rattle.std.specs.Prelude.{◌≡◌, option_map};
ghost use Rattle.schedule.specs.Settings.{in_limits, read_settings};
ghost use Rattle.schedule.specs.Code.{settings_of};

use parts::Id;
use record::Row;

#[derive(Clone, Copy)]
pub struct Settings {
    pub genesis_round: u32,
    pub genesis_digest: Id,
    pub payload_batch_bytes: u32,
    pub sticky_anchors: u8,
    pub clock_skew_millis: u16,
    pub commit_history_rounds: u8,
}

const SETTINGS: Row = Row {
    tag: 32,
    least: 44,
    greatest: 44,
};

// Whether every number lies within its limits.
#[tactic(auto, unfolding(crate::specs::Settings::in_limits))]
fn are_in_limits(c: Settings) -> bool
    ensures { result ≡ in_limits (settings_of c) }
{
    parts::is_round(c.genesis_round)
        && 1 <= c.payload_batch_bytes
        && 1 <= c.clock_skew_millis
        && 1 <= c.commit_history_rounds
}

// The settings of a slice that holds them and nothing after them.
#[tactic(auto, unfolding(crate::specs::Settings::read_settings))]
pub fn read_settings(s: &[u8]) -> Option<Settings>
    ensures { option_map settings_of result ≡ read_settings s.now }
{
    if s.len() != parts::SETTINGS_LENGTH || !record::field_ok(s, 0, SETTINGS) {
        return None;
    }
    let settings = Settings {
        genesis_round: parts::u32_at(s, 3),
        genesis_digest: parts::id_at(s, 7),
        payload_batch_bytes: parts::u32_at(s, 39),
        sticky_anchors: s[43],
        clock_skew_millis: parts::u16_at(s, 44),
        commit_history_rounds: s[46],
    };
    are_in_limits(settings).then_some(settings)
}
