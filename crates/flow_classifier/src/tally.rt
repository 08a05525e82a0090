//! The packets of one flow, tick by tick.

ghost use Rattle.std.specs.Prelude.{◌≡◌, ◌≤◌, [], IfOk};
ghost use Rattle.circular_buffer.specs.Buffer.{buffer};
ghost use Rattle.port_model.specs.Counts.{one_more_packet, packet_total};
ghost use Rattle.flow_classifier.specs.Rows.{standing, tally_of};

use circular_buffer::HeapCircularBuffer;
use net_types::OutOfMemory;
use std::alloc::Global;

/// The packet counters of one flow, a ring with one for each tick of the window. A tick isn't noted
/// in each flow: what came since the ring was last brought up to date are as many ticks without a
/// packet.
#[derive(Drop)]
pub struct Tally {
    /// After so many ticks the ring was last brought up to date.
    pub(crate) until: u32,
    /// The packets since that tick, between it and the one before it, and so on.
    pub(crate) packets: HeapCircularBuffer<u32>,
}

/// Counts one packet more since the last tick.
fn count_one(packets: &mut HeapCircularBuffer<u32>)
    requires { 1 ≤ packets.old.capacity }
    ensures { packets.new ≡ buffer (one_more_packet packets.old.items) packets.old.capacity }
{
    // no longer than its capacity
    let _len = packets.len();
    let latest = packets.pop_front().unwrap_or(0);
    packets.push_front(latest.saturating_add(1));
}

impl Tally {
    /// No packets, after so many ticks.
    pub(crate) fn open(alloc: Global, window: usize, ticks: u32) -> Result<Tally, OutOfMemory>
        ensures { IfOk result (λ tally. tally ≡ tally_of ticks window []) }
    {
        Ok(Tally {
            until: ticks,
            packets: HeapCircularBuffer::with_capacity(alloc, window)?,
        })
    }

    /// Brings the ring up to date. It is seldom far behind: at most as many zeros are written as ticks
    /// went by, and no more than the ring's capacity.
    pub(crate) fn bring_up(&mut self, ticks: u32)
        ensures { self.new ≡ tally_of ticks self.old.packets.capacity (standing ticks self.old) }
    {
        let missed = ticks.saturating_sub(self.until) as usize;
        let places = self.packets.capacity();
        for _tick in 0..missed.min(places) {
            self.packets.push_front(0);
        }
        self.until = ticks;
    }

    /// Counts one packet more, after so many ticks, and answers how many are counted in all;
    /// 4,294,967,295 where there are more.
    pub(crate) fn count(&mut self, ticks: u32) -> u32
        requires { 1 ≤ self.old.packets.capacity }
        ensures tally { self.new ≡ tally_of ticks self.old.packets.capacity (one_more_packet (standing ticks self.old)) }
        ensures total { result ≡ packet_total (one_more_packet (standing ticks self.old)) }
    {
        self.bring_up(ticks);
        count_one(&mut self.packets);
        self.total(ticks)
    }

    /// How many packets are counted after so many ticks; 4,294,967,295 where there are more.
    pub(crate) fn total(&self, ticks: u32) -> u32
        ensures { result ≡ packet_total (standing ticks self.now) }
    {
        let missed = ticks.saturating_sub(self.until) as usize;
        let left = self.packets.capacity().saturating_sub(missed);
        self.packets
            .iter()
            .take(left)
            .fold(0, |sum: u32, packets| sum.saturating_add(*packets))
    }
}
