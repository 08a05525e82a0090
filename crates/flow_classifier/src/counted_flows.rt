//! The flows that are counted, one by one.

ghost use Rattle.std.specs.Iterator.{YieldsFirst, item_count};

use crate::tally::Tally;
use ipv4_packet::FlowId;
use std::marker::Model;

/// An iterator over the flows that are counted, each with how many of its packets came in the last
/// `window` ticks; 4,294,967,295 where there are more. The flow whose last packet is the oldest
/// comes first. A step looks at no other flow.
#[derive(Drop)]
pub struct CountedFlows<'a> {
    pub(crate) ticks: u32,
    pub(crate) rows: lru::Iter<'a, FlowId, Tally>,
}

impl<'a> Model for CountedFlows<'a> {
    ghost use Rattle.std.specs.Prelude.{ℕ, List};
    ghost use Rattle.ipv4_packet.specs.declared.flow.FlowId.{FlowId};
    ghost use Rattle.flow_classifier.specs.Rows.{counts_of};
    ghost use Rattle.flow_classifier.specs.Counting.{totals};

    ghost Value = { List (FlowId × ℕ) };

    ghost view = { λ flows. totals (counts_of flows.ticks flows.rows) };
}

impl<'a> Iterator for CountedFlows<'a> {
    type Item = (FlowId, u32);

    ghost next_gives = { YieldsFirst (λ flows. flows) };

    ghost remaining = { item_count (λ flows. flows) };

    fn next(&mut self) -> Option<(FlowId, u32)> {
        let (flow, tally) = self.rows.next_back()?;
        Some((*flow, tally.total(self.ticks)))
    }
}
