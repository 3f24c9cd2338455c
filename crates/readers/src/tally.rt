// How many were read and how many not, and a sum in which each of them shows.
use crate::mix::{mix, mix_option};
use crate::point_sum::sum_of_point;
use crate::schedule_sum::{sum_of_schedule, sum_of_settings};

#[derive(Clone, Copy, Default)]
pub struct Tally {
    pub readable: u64,
    pub unreadable: u64,
    pub sum: u64,
}

impl Tally {
    // One more, by the sum of what was read.
    fn count(&mut self, read: Option<u64>) {
        match read {
            Some(_) => self.readable = self.readable.wrapping_add(1),
            None => self.unreadable = self.unreadable.wrapping_add(1),
        }
        self.sum = mix_option(self.sum, read, mix);
    }

    pub fn settings(&mut self, s: &[u8]) {
        self.count(schedule::read_settings(s).map(sum_of_settings));
    }

    pub fn schedule(&mut self, s: &[u8]) {
        self.count(schedule::read_peer_schedule(s).map(|schedule| sum_of_schedule(&schedule)));
    }

    pub fn record(&mut self, rec: &[u8]) {
        self.count(point::read_point(rec).map(|point| sum_of_point(&point)));
    }
}
