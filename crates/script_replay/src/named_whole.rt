//! From a document, and from the number of a drill, to a sink.

ghost use Rattle.std.specs.Prelude.{◌≡◌, is_some, IfOk, Ok, OnOk};
ghost use Rattle.lab_io.specs.Fault.{count_after};
ghost use Rattle.lab_io.specs.Puts.{is_failed};
ghost use Rattle.network_replay.specs.Along.{IsMetered};
ghost use Rattle.script_replay.specs.network_replay.Ending.{EndsAs};
ghost use Rattle.script_model.specs.Documents.{document_rules, document_script, policy_with, rules_in, rules_read, script_in};
ghost use Rattle.script_model.specs.Drill.{drill_script};
ghost use Rattle.world_model.specs.Topology.{policy_of};
ghost use Rattle.script_replay.specs.DocumentLines as documents;
ghost use Rattle.script_replay.specs.Drill as drills;

use crate::choice::{ByName, ByRules, NamedController, RuledController};
use crate::document::{refuse, replay_lines};
use document_rules::{RulesRead, read_rules};
use document_text::{DocumentFault, Lines, read_document};
use lab_io::{Sink, Stop};
use script_model::Refused;
use std::alloc::Global;
use world::Meter;

/// Replays a document whose rules are read, up to the first that is refused.
fn replay_read<K: Sink>(
    alloc: Global,
    lines: &Lines,
    read: &RulesRead,
    sink: &mut K,
    meter: &mut Meter,
) -> Result<bool, Stop>
    requires { read.now ≡ rules_read lines.now }
    ensures written { EndsAs result (K.written sink.old) (K.written sink.new) (documents.report_by (policy_with (rules_in (Ok lines.now))) (script_in (Ok lines.now))) }
    ensures refused { IfOk result (λ refused. refused ≡ is_some (script_in (Ok lines.now)).refused) }
    ensures meter { OnOk result (meter.new ≡ documents.meter_by (policy_with (rules_in (Ok lines.now))) meter.old (script_in (Ok lines.now))) }
    ensures metered { IsMetered (policy_with (rules_in (Ok lines.now))) meter.old (script_in (Ok lines.now)) meter.new }
    ensures faults { K.faults sink.new ≡ count_after (is_failed result) (K.faults sink.old) }
{
    if let Some(refused) = read.refused() {
        return refuse(alloc, refused, sink);
    }
    match lines.rules() {
        None => replay_lines::<NamedController, ByName, K>(alloc, lines, &ByName, sink, meter),
        Some(_) => {
            let choice = ByRules {
                rules: read.rules(),
            };
            replay_lines::<RuledController<'_>, ByRules<'_>, K>(alloc, lines, &choice, sink, meter)
        }
    }
}

/// Replays the lines of a document.
fn replay_of_lines<K: Sink>(
    alloc: Global,
    lines: &Lines,
    sink: &mut K,
    meter: &mut Meter,
) -> Result<bool, Stop>
    ensures written { EndsAs result (K.written sink.old) (K.written sink.new) (documents.report_by (policy_with (rules_in (Ok lines.now))) (script_in (Ok lines.now))) }
    ensures refused { IfOk result (λ refused. refused ≡ is_some (script_in (Ok lines.now)).refused) }
    ensures meter { OnOk result (meter.new ≡ documents.meter_by (policy_with (rules_in (Ok lines.now))) meter.old (script_in (Ok lines.now))) }
    ensures metered { IsMetered (policy_with (rules_in (Ok lines.now))) meter.old (script_in (Ok lines.now)) meter.new }
    ensures faults { K.faults sink.new ≡ count_after (is_failed result) (K.faults sink.old) }
{
    let read = read_rules(alloc, lines)?;
    replay_read(alloc, lines, &read, sink, meter)
}

/// Replays the script that a document is, and writes its report to `sink` as it grows. Where the document
/// has rules, they are the policy, and else the one that the script names is; the packets of a flow are
/// counted over the window of the script. Tells whether something in it is refused: the document as a
/// whole, a rule, or a line. The first fault ends the replay; after want of memory what is held of the
/// report is still written. The meter counts the events: whatever the result, it is at one of them, or as it
/// was before the first.
pub fn replay_document<K: Sink>(
    alloc: Global,
    octets: &[u8],
    sink: &mut K,
    meter: &mut Meter,
) -> Result<bool, Stop>
    ensures written { EndsAs result (K.written sink.old) (K.written sink.new) (documents.report_by (policy_with (document_rules octets.now)) (document_script octets.now)) }
    ensures refused { IfOk result (λ refused. refused ≡ is_some (document_script octets.now).refused) }
    ensures meter { OnOk result (meter.new ≡ documents.meter_by (policy_with (document_rules octets.now)) meter.old (document_script octets.now)) }
    ensures metered { IsMetered (policy_with (document_rules octets.now)) meter.old (document_script octets.now) meter.new }
    ensures faults { K.faults sink.new ≡ count_after (is_failed result) (K.faults sink.old) }
{
    match read_document(alloc, octets) {
        Ok(lines) => replay_of_lines(alloc, &lines, sink, meter),
        Err(DocumentFault::Refused(name)) => refuse(alloc, Refused::Document(name), sink),
        Err(DocumentFault::OutOfMemory(error)) => Err(Stop::OutOfMemory(error)),
    }
}

/// Replays the script of the drill with this number, and writes the last line of its report to `sink`.
/// Tells whether a line of it is refused. The first fault ends the replay. The meter counts the events:
/// whatever the result, it is at one of them, or as it was before the first.
pub fn replay_drill<K: Sink>(
    alloc: Global,
    drill: u32,
    sink: &mut K,
    meter: &mut Meter,
) -> Result<bool, Stop>
    ensures written { EndsAs result (K.written sink.old) (K.written sink.new) (drills.report_by policy_of (drill_script drill)) }
    ensures refused { IfOk result (λ refused. refused ≡ is_some (drill_script drill).refused) }
    ensures meter { OnOk result (meter.new ≡ drills.meter_by policy_of meter.old (drill_script drill)) }
    ensures metered { IsMetered policy_of meter.old (drill_script drill) meter.new }
    ensures faults { K.faults sink.new ≡ count_after (is_failed result) (K.faults sink.old) }
{
    crate::drill::replay_drill::<NamedController, ByName, K>(alloc, drill, &ByName, sink, meter)
}
