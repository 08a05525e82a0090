//! Replays the script of its input where only flows that ask for high throughput are worth a label.
#![tactic(auto)]

ghost use Rattle.std.specs.Prelude.{◌≡◌, IfOk, IfErr};
ghost use Rattle.script_replay.specs.Report.{IsDone, IsLeft, body_by, report_by};
ghost use Rattle.example_policy.specs.Throughput.{asks, throughput};

use controller::Controller;
use flow_classifier::Policy;
use ipv4_packet::FlowId;
use lab_io::{Sink, Source, StdSink, StdSource};
use network_replay::PolicyChoice;
use port_router::RouterPort;
use script_replay::{LineFault, replay};
use std::alloc::Global;
use std::process::ExitCode;
use topology::Topology;
use world::Meter;

/// Whether the packets of a flow ask for high throughput.
fn asks(flow: &FlowId) -> bool
    ensures { result ≡ asks flow.now }
{
    matches!(flow, FlowId::One { tos, .. } if *tos / 8 % 2 == 1)
}

/// The policy: from the second packet of such a flow on, and for at most 40 idle ticks.
#[derive(Clone, Copy, Debug, Drop)]
struct Throughput;

impl Policy for Throughput {
    ghost meaning = { λ policy. throughput };

    fn offer(&self, flow: &FlowId, packets: u32) -> bool {
        asks(flow) && packets >= 2
    }

    fn keep(&self, flow: &FlowId, idle: u32) -> bool {
        asks(flow) && idle <= 40
    }
}

type Node = Controller<RouterPort<Throughput>>;

impl PolicyChoice<Node> for Throughput {
    ghost chosen = { λ choice topology. throughput };

    fn choose(&self, _topology: &Topology) -> Throughput {
        Throughput
    }
}

/// Replays a script under the policy, and tells whether a line of it is refused.
fn run<S: Source, K: Sink>(
    alloc: Global,
    source: &mut S,
    sink: &mut K,
    meter: &mut Meter,
) -> Result<bool, LineFault>
    ensures done { IfOk result (IsDone (λ topology. throughput) (report_by (λ topology. throughput)) (S.left source.old) (S.left source.new) (K.written sink.old) (K.written sink.new) meter.old meter.new) }
    ensures left { IfErr result (λ fault. IsLeft fault (report_by (λ topology. throughput)) (body_by (λ topology. throughput)) (S.left source.old) (S.left source.new) (K.written sink.old) (K.written sink.new)) }
{
    replay::<Node, Throughput, S, K>(alloc, &Throughput, source, sink, meter)
}

fn main(rt: HostRuntime) -> ExitCode {
    let mut source = StdSource::new(rt.stdin());
    let mut sink = StdSink::new(rt.stdout());
    match run(rt.alloc(), &mut source, &mut sink, &mut Meter::new()) {
        Ok(refused) => ExitCode::from(if refused { 2 } else { 0 }),
        Err(LineFault::Read) => ExitCode::from(3),
        Err(LineFault::Write) => ExitCode::from(4),
        Err(LineFault::OutOfMemory(_)) => ExitCode::from(5),
    }
}
