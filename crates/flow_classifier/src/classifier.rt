//! The classifier.

ghost use Rattle.std.specs.Prelude.{◌≡◌, ◌≤◌, [], IsOk, IsSome, IfOk, OnOk, OnErr};
ghost use Rattle.port_model.specs.Counts.{counted_of, counted_once, window_moved, packets_in};
ghost use Rattle.flow_classifier.specs.Counting.{totals};

use crate::counted_flows::CountedFlows;
use crate::rows::{Rows, begin_anew};
use crate::tally::Tally;
use ipv4_packet::FlowId;
use lru::LruCache;
use net_types::OutOfMemory;
use std::alloc::Global;
use std::marker::Model;
use std::num::NonZeroUsize;

/// The most flows that are counted.
const MOST_FLOWS: usize = 1024;

/// The packet counters of a flow classifier (Newman, Minshall and Lyon): how many packets of each
/// flow came in the last ticks.
#[derive(Drop)]
pub struct Classifier {
    window: usize,
    /// The ticks that went by, since they were last counted from zero.
    ticks: u32,
    rows: Rows,
}

impl Model for Classifier {
    ghost use Rattle.std.specs.Prelude.{◌≤◌};
    ghost use Rattle.flow_classifier.specs.Counting.{Counting};
    ghost use Rattle.flow_classifier.specs.Rows.{AreRows, counts_of};

    ghost Value = { Counting };

    ghost view = { λ c. record { window = c.window; counts = counts_of c.ticks c.rows.entries } };

    ghost invariant = { λ c. record {
      some : 1 ≤ c.window;
      rows : AreRows c.window c.ticks c.rows;
    } };
}

impl Classifier {
    /// A classifier that counts the packets of the last `window` ticks, 1 to 64. A packet is in the
    /// last `window` ticks while fewer than `window` calls of [`Classifier::tick`] came after it.
    pub fn open(alloc: Global, window: usize) -> Result<Classifier, OutOfMemory>
        requires { (1 ≤ window) × (window ≤ 64) }
        ensures { IfOk result (λ classifier. classifier ≡ record { window = window; counts = [] }) }
    {
        // room for rows comes as they come: a port's flows are often few
        let most = NonZeroUsize::new(MOST_FLOWS).unwrap();
        Ok(Classifier {
            window,
            ticks: 0,
            rows: LruCache::sparse(alloc, most)?,
        })
    }

    /// Counts a packet of the flow, and answers how many of its packets came in the last `window`
    /// ticks since it was last forgotten, this one included; 4,294,967,295 where there are more. A
    /// 1,025th flow makes the one forgotten that was counted the longest ago. Want of memory changes
    /// nothing; a flow that is counted already takes none.
    pub fn count(&mut self, flow: FlowId) -> Result<u32, OutOfMemory>
        ensures packets { IfOk result (λ packets. packets ≡ packets_in self.new.counts flow) }
        ensures ok { OnOk result (self.new ≡ record self.old { counts = counted_once self.old.counts flow }) }
        ensures err { OnErr result (self.new ≡ self.old) }
        ensures memory { IsSome (counted_of self.old.counts flow) → IsOk result }
    {
        // each flow is there once, and no more are there than there may be
        let _len = self.rows.len();
        match self.rows.get_mut(&flow) {
            Some(tally) => Ok(tally.count(self.ticks)),
            None => {
                let mut tally = Tally::open(*self.rows.allocator(), self.window, self.ticks)?;
                let packets = tally.count(self.ticks);
                self.rows.put(flow, tally)?;
                Ok(packets)
            }
        }
    }

    /// A tick goes by.
    pub fn tick(&mut self)
        ensures { self.new ≡ record self.old { counts = window_moved self.old.window self.old.counts } }
    {
        if self.ticks == u32::MAX {
            begin_anew(&mut self.rows, self.ticks);
            self.ticks = 0;
        }
        self.ticks += 1;
    }

    /// Forgets all flows.
    pub fn clear(&mut self)
        ensures { self.new ≡ record self.old { counts = [] } }
    {
        self.rows.clear();
    }

    /// The flows that are counted, the one whose last packet is the oldest first, each with how many
    /// of its packets came in the last `window` ticks; 4,294,967,295 where there are more. Nothing is
    /// copied but what a step gives.
    pub fn flows(&self) -> CountedFlows<'_>
        ensures { result ≡ totals self.now.counts }
    {
        CountedFlows {
            ticks: self.ticks,
            rows: self.rows.iter(),
        }
    }
}
