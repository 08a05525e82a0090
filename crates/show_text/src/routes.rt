//! Routes, and changes of them that wait.

ghost use Rattle.std.specs.Prelude.{◌≡◌, ◌++◌, ◌∷◌, [], OnOk, OnErr, codes};
ghost use Rattle.lab_text.specs.Kept.{BreaksOff};
ghost use Rattle.script_model.specs.Texts.{port_text, prefix_text};
ghost use Rattle.script_model.specs.Writing.{change_words};
ghost use Rattle.show_text.specs.Node.{begun_text, next_text, route_line, waiting_line};
ghost use Rattle.show_text.specs.Words.{spaced};

use crate::words::write_head;
use ipv4_forward::{Next, Route, RouteChange};
use lab_text::Text;
use net_types::{NodeId, OutOfMemory, PortNo, Prefix};
use record_text::{write_port, write_prefix};
use topology::Topology;

fn write_next(out: &mut Text, next: Next) -> Result<(), OutOfMemory>
    ensures ok { OnOk result (out.new ≡ out.old ++ next_text next) }
    ensures err { OnErr result (BreaksOff out.old (out.old ++ next_text next) out.new) }
{
    match next {
        Next::Via(port) => {
            out.text("via ")?;
            write_port(out, port)
        }
        Next::Local => out.text("local"),
    }
}

/// Appends the line of a route that a node holds.
pub fn write_route(
    out: &mut Text,
    names: &Topology,
    node: NodeId,
    route: &Route,
) -> Result<(), OutOfMemory>
    ensures ok { OnOk result (out.new ≡ out.old ++ route_line names.now node route.now) }
    ensures err { OnErr result (BreaksOff out.old (out.old ++ route_line names.now node route.now) out.new) }
{
    write_head(out, "route ", names, node)?;
    write_prefix(out, route.prefix)?;
    out.text(" ")?;
    write_next(out, route.next)?;
    out.text("\n")
}

/// Appends a word, a name and a prefix.
fn write_changed(out: &mut Text, word: &str, name: &[u8], prefix: Prefix) -> Result<(), OutOfMemory>
    ensures ok { OnOk result (out.new ≡ out.old ++ (word.now ++ (codes " " ++ (name.now ++ (codes " " ++ prefix_text prefix))))) }
    ensures err { OnErr result (BreaksOff out.old (out.old ++ (word.now ++ (codes " " ++ (name.now ++ (codes " " ++ prefix_text prefix))))) out.new) }
{
    out.text(word)?;
    out.text(" ")?;
    out.octets(name)?;
    out.text(" ")?;
    write_prefix(out, prefix)
}

/// Appends a route that comes and leads out of a port, as the words of its line in a script.
fn write_via(out: &mut Text, name: &[u8], prefix: Prefix, port: PortNo) -> Result<(), OutOfMemory>
    ensures ok { OnOk result (out.new ≡ out.old ++ spaced (codes "setroute" ∷ name.now ∷ prefix_text prefix ∷ codes "via" ∷ port_text port ∷ [])) }
    ensures err { OnErr result (BreaksOff out.old (out.old ++ spaced (codes "setroute" ∷ name.now ∷ prefix_text prefix ∷ codes "via" ∷ port_text port ∷ [])) out.new) }
{
    write_changed(out, "setroute", name, prefix)?;
    out.text(" via ")?;
    write_port(out, port)
}

/// The same of a route to the node itself.
fn write_local(out: &mut Text, name: &[u8], prefix: Prefix) -> Result<(), OutOfMemory>
    ensures ok { OnOk result (out.new ≡ out.old ++ spaced (codes "setroute" ∷ name.now ∷ prefix_text prefix ∷ codes "local" ∷ [])) }
    ensures err { OnErr result (BreaksOff out.old (out.old ++ spaced (codes "setroute" ∷ name.now ∷ prefix_text prefix ∷ codes "local" ∷ [])) out.new) }
{
    write_changed(out, "setroute", name, prefix)?;
    out.text(" local")
}

/// Appends a change of routes as the words of its line in a script.
fn write_change(out: &mut Text, name: &[u8], change: &RouteChange) -> Result<(), OutOfMemory>
    ensures ok { OnOk result (out.new ≡ out.old ++ spaced (change_words name.now change.now.prefix change.now.next)) }
    ensures err { OnErr result (BreaksOff out.old (out.old ++ spaced (change_words name.now change.now.prefix change.now.next)) out.new) }
{
    match change.next {
        Some(Next::Via(port)) => write_via(out, name, change.prefix, port),
        Some(Next::Local) => write_local(out, name, change.prefix),
        None => write_changed(out, "unroute", name, change.prefix),
    }
}

fn begun_word(begun: bool) -> &'static str
    ensures { result.now ≡ begun_text begun }
{
    if begun { " begun" } else { "" }
}

/// Appends the line of a change of routes that waits at a node.
pub fn write_waiting(
    out: &mut Text,
    names: &Topology,
    node: NodeId,
    begun: bool,
    change: &RouteChange,
) -> Result<(), OutOfMemory>
    ensures ok { OnOk result (out.new ≡ out.old ++ waiting_line names.now node begun change.now) }
    ensures err { OnErr result (BreaksOff out.old (out.old ++ waiting_line names.now node begun change.now) out.new) }
{
    out.text("waiting ")?;
    write_change(out, names.name(node), change)?;
    out.text(begun_word(begun))?;
    out.text("\n")
}
