//! Field widths of IFMP (RFC 1953): each number that a port keeps or says has as many bits as its field in a message,
//! of instances, addresses, sequence numbers and the fields of flows.
//!
//! `specs/Widths` says which numbers these are. There is no code that runs.
#![tactic(auto)]

ghost use Rattle.std.specs.Prelude.{◌≡◌, ℕ, ◌<◌, ◌+◌, ◌^◌, List, Some};
ghost use Rattle.law_port_facts.specs.port_model.Words.{Addr, End, FlowId, FitsFields, Request, FitsMessage, Desk, Setup, Grant, Work, hears, counts, packet_flow, used, parted, lent, given_back, halts_if_spent, resets, restarts};
ghost use Rattle.law_port_facts.specs.port_model.ifmp_wire.declared.message.Message.{Message};
ghost use Rattle.law_port_facts.specs.port_model.Port.{Port};
ghost use Rattle.law_port_facts.specs.port_model.Answers.{done};
ghost use Rattle.law_port_facts.specs.port_model.Ticks.{ticks};
ghost use Rattle.law_port_facts.specs.port_model.Joins.{joined};
ghost use Rattle.law_port_facts.specs.port_model.Resets.{cleared};
ghost use Rattle.law_port_widths.specs.Widths.{FitsGrant, FitsPort, FitsWork, FitsSetup};

/// Each rule of a port keeps the widths of its numbers, and says none that is wider, where what it heard has
/// them. It does nothing, and its contract is the statement.
pub fn numbers_have_their_width()
    ensures hearing { (setup : Setup) (desk : Desk) (w : Work) (source : Addr) (message : Message) → FitsSetup setup → source.0 < 2 ^ 32 → FitsMessage message
        → FitsWork w → FitsWork (hears setup desk w source message) }
    ensures counting { (setup : Setup) (desk : Desk) (w : Work) (packet : List ℕ) → FitsSetup setup → ((flow : FlowId) → packet_flow packet ≡ Some flow → FitsFields flow)
        → FitsWork w → FitsWork (counts setup desk w packet) }
    ensures in_use { (w : Work) (number : ℕ) → FitsWork w → FitsWork (used w number) }
    ensures answers { (setup : Setup) (w : Work) (request : Request) → FitsSetup setup → FitsWork w → FitsWork (done setup w request) }
    ensures tick { (setup : Setup) (desk : Desk) (w : Work) → FitsSetup setup → FitsWork w → FitsWork (ticks setup desk w) }
    ensures joining { (w : Work) (number : ℕ) (output : End) → FitsWork w → FitsWork (joined w number output) }
    ensures parting { (w : Work) (number : ℕ) → FitsWork w → FitsWork (parted w number) }
    ensures lending { (w : Work) (grant : Grant) (input : End) → FitsGrant grant → FitsWork w → FitsWork (lent w grant input) }
    ensures giving { (w : Work) (grant : Grant) → FitsGrant grant → FitsWork w → FitsWork (given_back w grant) }
    ensures closing { (w : Work) → FitsWork w → FitsWork (halts_if_spent w) }
    ensures reset { (setup : Setup) (w : Work) → FitsSetup setup → w.instances + 1 < 2 ^ 32 → FitsWork w → FitsWork (resets setup w) }
    ensures restart { (setup : Setup) (w : Work) → FitsSetup setup → w.instances + 1 < 2 ^ 32 → FitsWork w → FitsWork (restarts setup w) }
    ensures clearing { (port : Port) → FitsPort port → FitsPort (cleared port) }
{}
