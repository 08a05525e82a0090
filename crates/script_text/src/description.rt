//! What is said of a topology, and why it can't be so.

ghost use Rattle.std.specs.Prelude.{◌≡◌, IfOk};
ghost use Rattle.world_model.specs.Lines.{line_refusal};
ghost use Rattle.script_words.specs.Told.{described};

use ipv4_forward::Next;
use net_types::{Octets, OutOfMemory};
use script_words::Described;
use std::alloc::Global;
use topology::Topology;
use world_model::{TopologyLine, TopologyRefusal};

/// Why what is said can't be so behind the lines before it, if it can't. It takes no memory.
pub fn description_refusal(topology: &Topology, said: &Described<'_>) -> Option<TopologyRefusal>
    ensures { result ≡ line_refusal topology.now (described said.now) }
{
    match said {
        Described::Node { name, .. } => topology.node_refusal(name),
        Described::Cells { name, .. } | Described::Labels { name, .. } => {
            topology.name_refusal(name)
        }
        Described::Link {
            first,
            first_port,
            second,
            second_port,
        } => topology.link_refusal(first, *first_port, second, *second_port),
        Described::RouteVia { name, prefix, port } => {
            topology.route_refusal(name, *prefix, Next::Via(*port))
        }
        Described::RouteLocal { name, prefix } => {
            topology.route_refusal(name, *prefix, Next::Local)
        }
        Described::PolicyXy { .. }
        | Described::PolicyNever
        | Described::Timers { .. }
        | Described::Version { .. } => None,
    }
}

fn owned(alloc: Global, name: &[u8]) -> Result<Octets, OutOfMemory>
    ensures { IfOk result (λ octets. octets ≡ name.now) }
{
    Ok(Octets::new(name.to_vec(alloc)?))
}

/// The line that says it, with names of its own.
pub fn line_of(alloc: Global, said: &Described<'_>) -> Result<TopologyLine, OutOfMemory>
    ensures { IfOk result (λ line. line ≡ described said.now) }
{
    Ok(match said {
        Described::Node { name, address } => TopologyLine::Node {
            name: owned(alloc, name)?,
            address: *address,
        },
        Described::Cells { name, cells } => TopologyLine::Cells {
            name: owned(alloc, name)?,
            cells: *cells,
        },
        Described::Labels { name, port, lo, hi } => TopologyLine::Labels {
            name: owned(alloc, name)?,
            port: *port,
            lo: *lo,
            hi: *hi,
        },
        Described::Link {
            first,
            first_port,
            second,
            second_port,
        } => TopologyLine::Link {
            first: (owned(alloc, first)?, *first_port),
            second: (owned(alloc, second)?, *second_port),
        },
        Described::RouteVia { name, prefix, port } => TopologyLine::RouteVia {
            name: owned(alloc, name)?,
            prefix: *prefix,
            port: *port,
        },
        Described::RouteLocal { name, prefix } => TopologyLine::RouteLocal {
            name: owned(alloc, name)?,
            prefix: *prefix,
        },
        Described::PolicyXy { x, y } => TopologyLine::PolicyXy { x: *x, y: *y },
        Described::PolicyNever => TopologyLine::PolicyNever,
        Described::Timers {
            lifetime,
            refresh,
            idle,
        } => TopologyLine::Timers {
            lifetime: *lifetime,
            refresh: *refresh,
            idle: *idle,
        },
        Described::Version { version } => TopologyLine::Version { version: *version },
    })
}
