// The sums of settings and of schedules. Of a schedule: its spans' first rounds, the last known round, and what it
// answers at the rounds around each.
use crate::mix::{mix, mix_id, sum_of_set};
use schedule::{PeerSchedule, Schedule, Settings};

pub fn sum_of_settings(c: Settings) -> u64 {
    let genesis = mix_id(mix(0, u64::from(c.genesis_round)), c.genesis_digest);
    let payload = mix(genesis, u64::from(c.payload_batch_bytes));
    let sticky = mix(payload, u64::from(c.sticky_anchors));
    let skew = mix(sticky, u64::from(c.clock_skew_millis));
    mix(skew, u64::from(c.commit_history_rounds))
}

// A number for an answer, 0 for none.
fn span_number(span: Option<usize>) -> u64 {
    span.map_or(0, |i| (i as u64).wrapping_add(1))
}

fn require_number(require: Option<bool>) -> u64 {
    require.map_or(0, |required| if required { 2 } else { 1 })
}

fn mix_round(sum: u64, schedule: &PeerSchedule, round: u32) -> u64 {
    let span = schedule.schedule.span_for(round);
    let peers = sum_of_set(schedule.peers_for(round));
    let require = schedule.schedule.require_regular_points(round);
    mix(
        mix(mix(sum, span_number(span)), peers),
        require_number(require),
    )
}

// What the schedule answers from five rounds before a round to one after it.
fn mix_around(sum: u64, schedule: &PeerSchedule, round: u32) -> u64 {
    let first = round.wrapping_sub(5);
    let mut sum = mix(sum, u64::from(round));
    for k in 0..7 {
        sum = mix_round(sum, schedule, first.wrapping_add(k));
    }
    sum
}

pub fn sum_of_schedule(schedule: &PeerSchedule) -> u64 {
    let Schedule {
        spans,
        count,
        last_known,
    } = schedule.schedule;
    let mut sum = mix(0, count as u64);
    for span in spans.iter().take(count) {
        sum = mix_around(sum, schedule, span.first);
    }
    mix_around(sum, schedule, last_known)
}
