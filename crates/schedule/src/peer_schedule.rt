// A schedule with its bytes, in which the peers stand: PeerSchedule of the Rust, as far as its peer sets are asked for.
ghost use Rattle.std.specs.Prelude.{◌≡◌, true, ◌≤◌, length, Some};
ghost use Rattle.map.specs.Rows.{peers_of, rising};
ghost use Rattle.schedule.specs.Schedule.{read_schedule, peers_for};
ghost use Rattle.schedule.specs.Code.{schedule_of, peer_bytes};

use crate::schedule::Schedule;

#[derive(Clone, Copy)]
pub struct PeerSchedule<'a> {
    pub bytes: &'a [u8],
    pub schedule: Schedule,
    pub ghost read: { read_schedule bytes.now ≡ Some (schedule_of bytes.now schedule) },
}

impl<'a> PeerSchedule<'a> {
    // The peers of a round: they rise, and are at most 255.
    #[tactic(auto, using(crate::proofs::Rounds::round_facts))]
    pub fn peers_for(&self, round: u32) -> &'a [u8]
        ensures same { peers_of 32 result.now ≡ peers_for (schedule_of self.now.bytes.now self.now.schedule) round }
        ensures bytes { result.now ≡ peer_bytes self.now.bytes.now self.now.schedule round }
        ensures rises { rising (peers_of 32 result.now) ≡ true }
        ensures few { length (peers_of 32 result.now) ≤ 255 }
    {
        self.schedule.peers_for(self.bytes, round)
    }
}
