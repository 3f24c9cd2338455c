// Schedules of peers: the port of stateless.rs, held by value.
ghost use Rattle.std.specs.Prelude.{◌≡◌, List, ℕ, ◌+◌, ◌≤◌, length, Some, None, option_map, IfSome};
ghost use Rattle.base.specs.Base.{pick};
ghost use Rattle.parts.specs.Bytes.{bytes_at, little_at};
ghost use Rattle.map.specs.Rows.{peers_of, rising};
ghost use Rattle.schedule.specs.Schedule.{span_ok, last_ok, read_schedule, span_for, peers_for, require_regular_points};
ghost use Rattle.schedule.specs.Code.{firsts_of, code_span_at, SpansRead, schedule_of, Handed, peer_bytes};
ghost use Rattle.schedule.specs.PeerSchedule.{ScheduleRead};

use crate::peer_schedule::PeerSchedule;
use record::Row;

// A span of rounds: the first, and where in the schedule's bytes its peers stand, and how many.
#[derive(Clone, Copy)]
pub struct Span {
    pub first: u32,
    pub place: usize,
    pub peers: u8,
}

// By value, as document 01 has it: four spans and their count, since there is no heap.
#[derive(Clone, Copy)]
pub struct Schedule {
    pub spans: [Span; 4],
    pub count: usize,
    pub last_known: u32,
}

// The spans at the front of a schedule's bytes, and where they end. There is no heap: room for four spans, of which `count` are read.
#[derive(Clone, Copy)]
struct ReadSpans {
    spans: [Span; 4],
    count: usize,
    end: usize,
}

// The field of a span, and that of the last known round.
pub const SPAN: Row = Row {
    tag: 34,
    least: 4,
    greatest: 8164,
};

pub const LAST_KNOWN: Row = Row {
    tag: 35,
    least: 4,
    greatest: 4,
};

const NO_SPAN: Span = Span {
    first: 0,
    place: 0,
    peers: 0,
};

// The span at a place, if one stands there. Its place is asked to lie in the slice, as in record's `next`.
#[tactic(auto, unfolding(crate::specs::Schedule::span_ok))]
fn span_at(s: &[u8], at: usize) -> Option<Span>
    requires { at ≤ length s.now }
    ensures { result ≡ pick (span_ok s.now at) (Some (code_span_at s.now at)) None }
{
    if !record::field_ok(s, at, SPAN) {
        return None;
    }
    let content = record::content_at(s, at);
    let span = Span {
        first: parts::u32_at(content, 0),
        place: at + 7,
        peers: ((content.len() - 4) / 32) as u8,
    };
    map::is_well_rowed(&content[4..], 32).then_some(span)
}

// The last known round, if it stands at a place and nothing after it.
#[tactic(auto, unfolding(crate::specs::Schedule::last_ok))]
fn last_known_at(s: &[u8], at: usize) -> Option<u32>
    requires { at ≤ length s.now }
    ensures { result ≡ pick (last_ok s.now at) (Some (little_at 4 s.now (at + 3))) None }
{
    if !record::field_ok(s, at, LAST_KNOWN) || record::next(s, at) != s.len() {
        return None;
    }
    Some(parts::u32_at(s, at + 3))
}

// At most four spans from the front on.
fn read_spans(s: &[u8]) -> ReadSpans
    ensures { SpansRead s.now result }
{
    let mut spans = [NO_SPAN; 4];
    let mut end = 0;
    for count in 0..4 {
        let Some(span) = span_at(s, end) else {
            return ReadSpans { spans, count, end };
        };
        spans[count] = span;
        end = record::next(s, end);
    }
    ReadSpans {
        spans,
        count: 4,
        end,
    }
}

// Whether the first rounds of spans rise strictly.
fn are_firsts_rising(spans: &[Span]) -> bool
    ensures { result ≡ rising (firsts_of spans.now) }
{
    spans.is_sorted_by(|a, b| a.first < b.first)
}

// The schedule of a slice that holds one and nothing after it.
pub fn read_schedule(s: &[u8]) -> Option<Schedule>
    ensures same { option_map (schedule_of s.now) result ≡ read_schedule s.now }
    ensures handed { IfSome result (Handed s.now) }
{
    let ReadSpans { spans, count, end } = read_spans(s);
    if count == 0 || !are_firsts_rising(&spans[..count]) {
        return None;
    }
    let last_known = last_known_at(s, end)?;
    Some(Schedule {
        spans,
        count,
        last_known,
    })
}

// The same with the slice's bytes.
pub fn read_peer_schedule(s: &[u8]) -> Option<PeerSchedule<'_>>
    ensures { ScheduleRead s.now result }
{
    let schedule = read_schedule(s)?;
    Some(PeerSchedule { bytes: s, schedule })
}

// A part of a slice, as much of it as there is.
fn part(s: &[u8], at: usize, n: usize) -> &[u8]
    ensures { result.now ≡ bytes_at n s.now at }
{
    let rest = s.get(at..).unwrap_or(&[]);
    &rest[..n.min(rest.len())]
}

impl Schedule {
    // The span that a round belongs to: the last that starts at or before it.
    pub fn span_for(&self, round: u32) -> Option<usize>
        ensures { (s : List ℕ) → result ≡ span_for (schedule_of s self.now) round }
    {
        if self.last_known < round {
            return None;
        }
        self.spans[..self.count.min(self.spans.len())]
            .iter()
            .rposition(|span| span.first <= round)
    }

    // The peers of a round, as a part of the schedule's bytes.
    pub fn peers_for<'a>(&self, s: &'a [u8], round: u32) -> &'a [u8]
        ensures same { peers_of 32 result.now ≡ peers_for (schedule_of s.now self.now) round }
        ensures bytes { result.now ≡ peer_bytes s.now self.now round }
    {
        match self.span_for(round) {
            Some(i) => {
                let span = self.spans[i];
                part(s, span.place, 32 * span.peers as usize)
            }
            None => &[],
        }
    }

    // Whether only regular points may stand at a round: where it and the round four later are in different spans. By value: with `&self`
    // the proof didn't close that the last known round, which is not read here, fits its 32 bits.
    pub fn require_regular_points(self, round: u32) -> Option<bool>
        ensures { (s : List ℕ) → result ≡ require_regular_points (schedule_of s self) round }
    {
        let i = self.span_for(round)?;
        let j = self.span_for(round.checked_add(parts::WAVE_ROUNDS)?)?;
        Some(i != j)
    }
}
