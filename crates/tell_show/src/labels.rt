//! What the session of a port holds.

ghost use Rattle.std.specs.Prelude.{◌≡◌, ◌++◌, length, option_map, slice_get, OnOk, Some};
ghost use Rattle.port_model.specs.Labels.{Label};
ghost use Rattle.show_text.specs.Port.{count_lines, counted_by, label_line, label_lines, session_text};
ghost use Rattle.tell_show.specs.Held.{labels_by};

use flow_classifier::Classifier;
use lab_text::Text;
use net_types::{Addr, NodeId, OutOfMemory, PortNo};
use port_session::Session;
use show_text::{write_count, write_label, write_numbers, write_peer, write_range};
use topology::Topology;

/// Appends what the line of a port says of its session, where there is one.
pub(crate) fn write_session(
    out: &mut Text,
    peer: Option<Addr>,
    session: Option<&Session>,
) -> Result<(), OutOfMemory>
    ensures { OnOk result (out.new ≡ out.old ++ session_text peer (option_map (λ s. s.now.session) session.entry)) }
{
    match session {
        Some(session) => {
            let (least, greatest) = session.narrowed();
            write_peer(out, peer)?;
            write_numbers(out, session.number(), session.expected(), session.known())?;
            write_range(out, least, greatest)
        }
        None => Ok(()),
    }
}

/// Appends the lines of the flows that are counted, the one whose last packet is the oldest first.
fn write_counts(
    out: &mut Text,
    names: &Topology,
    node: NodeId,
    port: PortNo,
    counted: &Classifier,
) -> Result<(), OutOfMemory>
    ensures { OnOk result (out.new ≡ out.old ++ count_lines names.now node port counted.now.counts) }
{
    let mut flows = counted.flows();
    while let Some((flow, packets)) = flows.next() {
        write_count(out, names, node, port, &flow, packets)?;
    }
    Ok(())
}

/// Appends the line of the label at an index in the order of the numbers, from 0.
fn write_label_at(
    out: &mut Text,
    names: &Topology,
    node: NodeId,
    port: PortNo,
    session: &Session,
    place: usize,
) -> Result<(), OutOfMemory>
    ensures { (label : Label) → slice_get session.now.session.labels place ≡ Some label → OnOk result (out.new ≡ out.old ++ label_line names.now node port label) }
{
    match session.held_at(place) {
        Some(label) => write_label(out, names, node, port, &label),
        None => Ok(()),
    }
}

/// Appends the lines of the labels that are held, in the order of their numbers.
fn write_labels(
    out: &mut Text,
    names: &Topology,
    node: NodeId,
    port: PortNo,
    session: &Session,
) -> Result<(), OutOfMemory>
    ensures { OnOk result (out.new ≡ out.old ++ label_lines names.now node port session.now.session.labels) }
{
    for place in 0..session.held() {
        write_label_at(out, names, node, port, session, place)?;
    }
    Ok(())
}

/// Appends the lines of the flows that are counted and of the labels that are held.
pub(crate) fn write_held(
    out: &mut Text,
    names: &Topology,
    node: NodeId,
    port: PortNo,
    session: Option<&Session>,
) -> Result<(), OutOfMemory>
    ensures { OnOk result (out.new ≡ out.old ++ (count_lines names.now node port (counted_by (option_map (λ s. s.now.session) session.entry)) ++ label_lines names.now node port (labels_by (option_map (λ s. s.now.session) session.entry)))) }
{
    match session {
        Some(session) => {
            write_counts(out, names, node, port, session.counted())?;
            write_labels(out, names, node, port, session)
        }
        None => Ok(()),
    }
}

/// How many labels are held.
pub(crate) fn count_labels(session: Option<&Session>) -> usize
    ensures { result ≡ length (labels_by (option_map (λ s. s.now.session) session.entry)) }
{
    match session {
        Some(session) => session.held(),
        None => 0,
    }
}
