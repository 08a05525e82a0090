//! Queues as interfaces.

ghost use Rattle.std.specs.Prelude.{◌≡◌, ◌++◌, ◌∷◌, [], map, position, OnOk, IfOk};
ghost use Rattle.pcapng_blocks.specs.Blocks.{block_octets, file_octets};
ghost use Rattle.world_model.specs.Topology.{peer_of};
ghost use Rattle.script_model.specs.Texts.{name_of};
ghost use Rattle.tell_capture.specs.Capture.{ends_text, far_text, interface_number, interface_of, opening_blocks};
ghost use Rattle.frame_packets.specs.Taps.{queue_of, same_queue};

use frame_packets::Queue;
use lab_text::Text;
use net_types::{NodeId, OutOfMemory, Place, PortNo};
use pcapng_blocks::{write_interface_description, write_section_header};
use record_text::{write_name, write_place};
use std::alloc::Global;
use topology::Topology;
use world::{NodeController, World};

/// The application that writes the file.
const APPLICATION: &[u8] = b"ipswitch";

/// The link type of ATM cells' frames with a head of SunATM.
const SUNATM: u16 = 123;

/// Appends a node's name, and words behind it.
fn write_actor(
    out: &mut Text,
    names: &Topology,
    node: NodeId,
    words: &str,
) -> Result<(), OutOfMemory>
    ensures { OnOk result (out.new ≡ out.old ++ (name_of names.now node ++ words.now)) }
{
    write_name(out, names, node)?;
    out.text(words)
}

/// Appends an actor of a node, and another.
fn write_between(
    out: &mut Text,
    names: &Topology,
    node: NodeId,
    one: &str,
    other: &str,
) -> Result<(), OutOfMemory>
    ensures { OnOk result (out.new ≡ out.old ++ (name_of names.now node ++ (one.now ++ (name_of names.now node ++ other.now)))) }
{
    write_actor(out, names, node, one)?;
    write_actor(out, names, node, other)
}

/// Appends the port at the other end of a link.
fn write_far(
    out: &mut Text,
    names: &Topology,
    node: NodeId,
    port: PortNo,
) -> Result<(), OutOfMemory>
    ensures { OnOk result (out.new ≡ out.old ++ far_text names.now (peer_of names.now node port)) }
{
    match names.peer_of(node, port) {
        None => Ok(()),
        Some((far, far_port)) => write_place(out, names, Place::Out(far, far_port)),
    }
}

/// Appends the two ends of a queue's link.
fn write_ends(out: &mut Text, names: &Topology, place: Place) -> Result<(), OutOfMemory>
    ensures { OnOk result (out.new ≡ out.old ++ ends_text names.now place) }
{
    match place {
        Place::Down(node) => write_between(out, names, node, " controller to ", " switch"),
        Place::Up(node) => write_between(out, names, node, " switch to ", " controller"),
        Place::Out(node, port) => {
            write_place(out, names, place)?;
            out.text(" to ")?;
            write_far(out, names, node, port)
        }
    }
}

/// Appends the description of a queue's interface.
fn write_interface(
    alloc: Global,
    out: &mut Vec<u8>,
    names: &Topology,
    place: Place,
) -> Result<(), OutOfMemory>
    ensures { OnOk result (out.new.items ≡ out.old.items ++ block_octets (interface_of names.now place)) }
{
    let mut name = Text::new(alloc);
    write_place(&mut name, names, place)?;
    let mut ends = Text::new(alloc);
    write_ends(&mut ends, names, place)?;
    write_interface_description(out, SUNATM, name.as_slice(), ends.as_slice(), 0)
}

/// The section and its interfaces.
pub fn opening_blocks<C: NodeController>(
    alloc: Global,
    world: &World<C>,
    names: &Topology,
) -> Result<Vec<u8>, OutOfMemory>
    ensures { IfOk result (λ blocks. blocks.items ≡ file_octets (opening_blocks names.now world.now.round.items)) }
{
    let mut blocks = Vec::new(alloc);
    write_section_header(&mut blocks, APPLICATION)?;
    for index in 0..world.places() {
        write_interface(alloc, &mut blocks, names, world.place(index))?;
    }
    Ok(blocks)
}

/// The queues, in the order of their interfaces.
pub fn queues_of<C: NodeController>(
    alloc: Global,
    world: &World<C>,
) -> Result<Vec<Queue>, OutOfMemory>
    ensures { IfOk result (λ queues. queues.items ≡ map queue_of world.now.round.items) }
{
    let mut queues = Vec::with_capacity(alloc, world.places())?;
    for index in 0..world.places() {
        queues.push(Queue::of(world.place(index)))?;
    }
    Ok(queues)
}

/// Where a queue stands among these, counted from 0.
fn place_among(queues: &[Queue], queue: Queue) -> Option<usize>
    ensures { result ≡ position (λ other. same_queue queue other) queues.now }
{
    queues.iter().position(|other| queue == *other)
}

/// The number of a queue's interface, counted from 0. There are ten interfaces for each node at most.
pub fn interface_number(queues: &[Queue], place: Place) -> u32
    ensures { result ≡ interface_number queues.now place }
{
    match place_among(queues, Queue::of(place)) {
        Some(number) => (number % 4_294_967_296) as u32,
        None => 0,
    }
}
