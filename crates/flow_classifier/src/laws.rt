//! The law of counts.

ghost use Rattle.std.specs.Prelude.{◌≡◌, ◌≤◌, ℕ, List, min, if◌then◌else◌};
ghost use Rattle.ipv4_packet.specs.declared.flow.FlowId.{FlowId};
ghost use Rattle.port_model.specs.Counts.{greatest_count, packets_in};
ghost use Rattle.flow_classifier.specs.History.{Call, counts_after, is_remembered, packets_since};

/// Whatever calls came, of a flow are counted its packets since it was last forgotten, after which
/// fewer than `window` ticks came, or 4,294,967,295 where there are more. A flow is forgotten where
/// all are cleared, and where 1,024 others were counted since its own last count.
pub fn counts_are_of_the_window()
    ensures { (window : ℕ) (flow : FlowId) (calls : List Call) → 1 ≤ window →
        packets_in (counts_after window calls) flow
        ≡ (if is_remembered flow calls then min greatest_count (packets_since window flow 0 calls) else 0) }
{}
