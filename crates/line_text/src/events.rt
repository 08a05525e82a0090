//! The lines of events.

ghost use Rattle.std.specs.Prelude.{◌≡◌, ◌++◌, ◌∷◌, [], OnOk, OnErr, codes};
ghost use Rattle.lab_text.specs.Kept.{BreaksOff};
ghost use Rattle.world_model.specs.network_model.declared.event.Event.TheVariants as of;
ghost use Rattle.lab_text.specs.Text.{line_of};
ghost use Rattle.script_model.specs.Texts.{name_of, place_text};
ghost use Rattle.script_model.specs.Writing.{event_words};

use crate::parts::write_named;
use crate::routes::{write_local, write_unroute, write_via};
use ipv4_forward::{Next, RouteChange};
use lab_text::Text;
use net_types::{Channel, NodeId, OutOfMemory, Place};
use record_text::{write_channel, write_name, write_place};
use topology::Topology;
use world_model::Event;

fn write_send(
    out: &mut Text,
    names: &Topology,
    node: NodeId,
    octets: &[u8],
) -> Result<(), OutOfMemory>
    ensures ok { OnOk result (out.new ≡ out.old ++ line_of (event_words names.now (of.Inject node octets.now))) }
    ensures err { OnErr result (BreaksOff out.old (out.old ++ line_of (event_words names.now (of.Inject node octets.now))) out.new) }
{
    out.text("send ")?;
    write_name(out, names, node)?;
    out.text(" ")?;
    out.hex(octets)?;
    out.text("\n")
}

/// Appends the line of what happens to a queue.
fn write_queue_line(
    out: &mut Text,
    word: &str,
    names: &Topology,
    place: Place,
) -> Result<(), OutOfMemory>
    ensures ok { OnOk result (out.new ≡ out.old ++ line_of (word.now ∷ place_text names.now place ∷ [])) }
    ensures err { OnErr result (BreaksOff out.old (out.old ++ line_of (word.now ∷ place_text names.now place ∷ [])) out.new) }
{
    out.text(word)?;
    out.text(" ")?;
    write_place(out, names, place)?;
    out.text("\n")
}

/// Appends the line of what happens at a node.
fn write_node_line(
    out: &mut Text,
    word: &str,
    names: &Topology,
    node: NodeId,
) -> Result<(), OutOfMemory>
    ensures ok { OnOk result (out.new ≡ out.old ++ line_of (word.now ∷ name_of names.now node ∷ [])) }
    ensures err { OnErr result (BreaksOff out.old (out.old ++ line_of (word.now ∷ name_of names.now node ∷ [])) out.new) }
{
    write_named(out, word, names.name(node), "\n")
}

fn write_forge(
    out: &mut Text,
    names: &Topology,
    place: Place,
    channel: Channel,
    payload: &[u8],
) -> Result<(), OutOfMemory>
    ensures ok { OnOk result (out.new ≡ out.old ++ line_of (event_words names.now (of.Forge place channel payload.now))) }
    ensures err { OnErr result (BreaksOff out.old (out.old ++ line_of (event_words names.now (of.Forge place channel payload.now))) out.new) }
{
    out.text("forge ")?;
    write_place(out, names, place)?;
    out.text(" ")?;
    write_channel(out, channel)?;
    out.text(" ")?;
    out.hex(payload)?;
    out.text("\n")
}

fn write_change(
    out: &mut Text,
    names: &Topology,
    node: NodeId,
    change: &RouteChange,
) -> Result<(), OutOfMemory>
    ensures ok { OnOk result (out.new ≡ out.old ++ line_of (event_words names.now (of.Route node change.now))) }
    ensures err { OnErr result (BreaksOff out.old (out.old ++ line_of (event_words names.now (of.Route node change.now))) out.new) }
{
    match change.next {
        Some(Next::Via(port)) => {
            write_via(out, "setroute", names.name(node), change.prefix, port)
        }
        Some(Next::Local) => write_local(out, "setroute", names.name(node), change.prefix),
        None => write_unroute(out, names.name(node), change.prefix),
    }
}

/// Appends the line of an event, with its LF, as [`write_line`](crate::write_line) does.
pub fn write_event(out: &mut Text, names: &Topology, event: &Event) -> Result<(), OutOfMemory>
    ensures ok { OnOk result (out.new ≡ out.old ++ line_of (event_words names.now event.now)) }
    ensures err { OnErr result (BreaksOff out.old (out.old ++ line_of (event_words names.now event.now)) out.new) }
{
    match event {
        Event::Inject { node, octets } => write_send(out, names, *node, octets.as_slice()),
        Event::Carry(place) => write_queue_line(out, "carry", names, *place),
        Event::Lose(place) => write_queue_line(out, "lose", names, *place),
        Event::Tick(node) => write_node_line(out, "tick", names, *node),
        Event::TickSwitch(node) => write_node_line(out, "tickswitch", names, *node),
        Event::Restart(node) => write_node_line(out, "restart", names, *node),
        Event::RestartSwitch(node) => write_node_line(out, "restartswitch", names, *node),
        Event::Forge {
            place,
            channel,
            payload,
        } => write_forge(out, names, *place, *channel, payload.as_slice()),
        Event::Route { node, change } => write_change(out, names, *node, change),
    }
}
