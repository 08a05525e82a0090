//! A controller before its first input.

ghost use Rattle.std.specs.Prelude.{◌≡◌, ◌≤◌, ◌<◌, ◌+◌, ◌^◌, ◌++◌, ◌∷◌, [], false, length, map, All, IfOk, OnOk};
ghost use Rattle.net_types.specs.Number.{HasNumbersLeft, with_instance};
ghost use Rattle.crossbar_model.specs.Channels.{ArePorts};
ghost use Rattle.world_model.specs.Opening.{after_opening, opened, setup_of};
ghost use Rattle.controller_router.specs.Engine.{opened_end};
ghost use Rattle.controller_joining.specs.Joining.{controller_of};
ghost use Rattle.node_controller.specs.Nodes.{AreRoutesOf, AreTimes, IsLabelRange};
ghost use Rattle.controller.specs.Controlling as controlling;
ghost use Rattle.controller.specs.Opening.{opened_ends};

use crate::controller::Controller;
use controller_gsmp::Client;
use controller_joining::JoiningRouter;
use controller_router::{OpenEngine, PortEngine, Router};
use controller_routes::Routes;
use ipv4_forward::Table;
use net_types::{Addr, NodeId, Numbers, OutOfMemory, Party};
use node_controller::{NodeController, NodeSetup};
use port_actions::Actions;
use port_model::Timers;
use std::alloc::Global;
use world_model::PortRange;

/// Gives engines up.
fn abandon_all<E: PortEngine>(mut engines: Vec<E>) {
    while let Some(engine) = engines.pop() {
        engine.abandon();
    }
    engines.destroy_empty();
}

/// Opens an engine for a port of this range, under the next instance.
fn push_engine<E: OpenEngine>(
    alloc: Global,
    engines: &mut Vec<E>,
    setup: &NodeSetup<'_>,
    range: PortRange,
    policy: E::Policy,
    numbers: &mut Numbers,
) -> Result<(), OutOfMemory>
    requires port { (1 ≤ range.port.0) × (range.port.0 ≤ 8) }
    requires range { IsLabelRange range }
    requires timers { AreTimes setup.now.timers }
    requires numbers { numbers.old.instances + 1 < 2 ^ 32 }
    ensures engine { OnOk result (map E.seen engines.new.items ≡ map E.seen engines.old.items ++ opened_end (setup_of setup.now.node setup.now.address setup.now.timers (E.meaning policy) range) numbers.old.instances ∷ []) }
    ensures numbers { OnOk result (numbers.new ≡ with_instance numbers.old) }
{
    engines.reserve(1)?;
    let own = numbers.instance();
    let engine = E::open(
        alloc,
        setup.node,
        setup.address,
        range,
        setup.timers,
        policy,
        own,
    )?;
    engines.push_reserved(engine);
    Ok(())
}

/// Opens an engine for each of the ports, each under the next instance.
fn push_engines<E: OpenEngine>(
    alloc: Global,
    engines: &mut Vec<E>,
    setup: &NodeSetup<'_>,
    policy: E::Policy,
    numbers: &mut Numbers,
) -> Result<(), OutOfMemory>
    requires none { engines.old.items ≡ [] }
    requires ports { ArePorts (map (λ range. range.port) setup.now.ports.now) }
    requires ranges { All IsLabelRange setup.now.ports.now }
    requires timers { AreTimes setup.now.timers }
    requires numbers { numbers.old.instances + 9 < 2 ^ 32 }
    ensures engines { OnOk result (map E.seen engines.new.items ≡ opened_ends (setup_of setup.now.node setup.now.address setup.now.timers (E.meaning policy)) numbers.old.instances setup.now.ports.now) }
    ensures numbers { OnOk result (numbers.new ≡ record numbers.old { instances = numbers.old.instances + length setup.now.ports.now }) }
{
    let ports = setup.ports;
    for range in ports {
        push_engine(alloc, engines, setup, *range, policy, numbers)?;
    }
    Ok(())
}

/// The engines of the ports.
fn open_engines<E: OpenEngine>(
    alloc: Global,
    setup: &NodeSetup<'_>,
    policy: E::Policy,
    numbers: &mut Numbers,
) -> Result<Vec<E>, OutOfMemory>
    requires ports { ArePorts (map (λ range. range.port) setup.now.ports.now) }
    requires ranges { All IsLabelRange setup.now.ports.now }
    requires timers { AreTimes setup.now.timers }
    requires numbers { numbers.old.instances + 9 < 2 ^ 32 }
    ensures engines { IfOk result (λ engines. map E.seen engines.items ≡ opened_ends (setup_of setup.now.node setup.now.address setup.now.timers (E.meaning policy)) numbers.old.instances setup.now.ports.now) }
    ensures numbers { OnOk result (numbers.new ≡ record numbers.old { instances = numbers.old.instances + length setup.now.ports.now }) }
{
    let mut engines = Vec::new(alloc);
    match push_engines(alloc, &mut engines, setup, policy, numbers) {
        Ok(()) => Ok(engines),
        Err(error) => {
            abandon_all(engines);
            Err(error)
        }
    }
}

/// The router of a controller before its first input: its own adjacency draws the first instance, and
/// then each port in turn.
pub(crate) fn open_router<E: OpenEngine>(
    alloc: Global,
    setup: &NodeSetup<'_>,
    table: Table,
    policy: E::Policy,
    numbers: &mut Numbers,
) -> Result<JoiningRouter<E>, OutOfMemory>
    requires ports { ArePorts (map (λ range. range.port) setup.now.ports.now) }
    requires ranges { All IsLabelRange setup.now.ports.now }
    requires timers { AreTimes setup.now.timers }
    requires numbers { HasNumbersLeft numbers.old }
    ensures controller { IfOk result (λ router. controller_of E.seen router ≡ opened setup.now.node setup.now.address table setup.now.ports.now setup.now.cells setup.now.timers (E.meaning policy) numbers.old) }
    ensures joins { IfOk result (λ router. router.joins ≡ []) }
    ensures numbers { OnOk result (numbers.new ≡ after_opening setup.now.ports.now numbers.old) }
{
    let own = numbers.instance();
    let party = Party {
        name: [2, 0, 0, 0, 0, setup.node.0],
        port: 0,
        instance: own,
    };
    let client = Client::open(alloc, party, setup.ports, setup.cells)?;
    match open_engines(alloc, setup, policy, numbers) {
        Ok(engines) => {
            let router = Router::new(
                alloc,
                setup.node,
                setup.address,
                Routes::new(alloc, table),
                client,
                engines,
                Actions::new(alloc),
            );
            JoiningRouter::open(alloc, router)
        }
        Err(error) => {
            client.abandon();
            Err(error)
        }
    }
}

impl<E: OpenEngine> Controller<E> {
    /// A controller before its first input: [`NodeController::open`] by the parts of the node's setup.
    pub fn open(
        alloc: Global,
        node: NodeId,
        address: Addr,
        table: Table,
        ports: &[PortRange],
        cells: usize,
        timers: Timers,
        policy: E::Policy,
        numbers: &mut Numbers,
    ) -> Result<Controller<E>, OutOfMemory>
        requires ports { ArePorts (map (λ range. range.port) ports.now) }
        requires ranges { All IsLabelRange ports.now }
        requires cells { (1 ≤ cells) × (cells ≤ 16384) }
        requires timers { AreTimes timers }
        requires table { AreRoutesOf table ports.now }
        requires numbers { HasNumbersLeft numbers.old }
        ensures controller { IfOk result (λ c. controlling.controller_of E.seen c ≡ opened node address table ports.now cells timers (E.meaning policy) numbers.old) }
        ensures able { IfOk result (λ c. c.failed ≡ false) }
        ensures numbers { OnOk result (numbers.new ≡ after_opening ports.now numbers.old) }
    {
        let setup = NodeSetup {
            node,
            address,
            ports,
            cells,
            timers,
        };
        NodeController::open(alloc, &setup, table, policy, numbers)
    }
}
