//! Grants.

ghost use Rattle.std.specs.Prelude.{◌≡◌, ◌++◌, OnOk, OnErr, codes, decimal};
ghost use Rattle.lab_text.specs.Kept.{BreaksOff};
ghost use Rattle.show_text.specs.Views.{view_line, word_by};

use crate::labels::{write_flow_and_join, write_front};
use crate::words::write_number;
use grant_table::{GrantState, GrantView};
use lab_text::Text;
use net_types::{NodeId, OutOfMemory, PortNo};
use topology::Topology;

fn state_word(state: GrantState, owed: bool) -> &'static str
    ensures { result.now ≡ word_by state owed }
{
    match state {
        GrantState::Idle => "idle",
        GrantState::ByController => "own",
        GrantState::ByInput => "lent",
        GrantState::Leaving => { if owed { "owed" } else { "leaving" } }
    }
}

/// Appends the state of a grant, and how many ticks it has left to live.
fn write_life(out: &mut Text, grant: &GrantView) -> Result<(), OutOfMemory>
    ensures ok { OnOk result (out.new ≡ out.old ++ (codes " " ++ (word_by grant.now.state grant.now.owed ++ (codes " lifetime " ++ decimal grant.now.lifetime)))) }
    ensures err { OnErr result (BreaksOff out.old (out.old ++ (codes " " ++ (word_by grant.now.state grant.now.owed ++ (codes " lifetime " ++ decimal grant.now.lifetime)))) out.new) }
{
    out.text(" ")?;
    out.text(state_word(grant.state, grant.owed))?;
    write_number(out, " lifetime ", u64::from(grant.lifetime))
}

/// Appends the line of a grant of a port, as it is read.
pub fn write_grant(
    out: &mut Text,
    names: &Topology,
    node: NodeId,
    port: PortNo,
    grant: &GrantView,
) -> Result<(), OutOfMemory>
    ensures ok { OnOk result (out.new ≡ out.old ++ view_line names.now node port grant.now) }
    ensures err { OnErr result (BreaksOff out.old (out.old ++ view_line names.now node port grant.now) out.new) }
{
    write_front(out, "grant ", names, node, port, grant.label)?;
    write_life(out, grant)?;
    write_flow_and_join(out, names, &grant.flow, " for ", grant.input)
}
