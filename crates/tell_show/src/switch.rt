//! The switch of a node.

ghost use Rattle.std.specs.Prelude.{◌≡◌, ◌++◌, length, OnOk};
ghost use Rattle.std.specs.FinMap.{entries};
ghost use Rattle.show_text.specs.Switch.{branch_lines, switch_lines};

use gsmp_switch::Switch;
use lab_text::Text;
use net_types::{NodeId, OutOfMemory};
use show_text::{write_branch, write_switch};
use topology::Topology;

/// Appends the lines of all branches, in the order of port, VPI and VCI of their inputs.
fn write_branches(
    out: &mut Text,
    names: &Topology,
    node: NodeId,
    switch: &Switch,
) -> Result<(), OutOfMemory>
    ensures { OnOk result (out.new ≡ out.old ++ branch_lines names.now node switch.now.crossbar.branches) }
{
    let mut after = None;
    while let Some((input, output)) = switch.branch_at(after) {
        write_branch(out, names, node, input, output)?;
        after = Some(input);
    }
    Ok(())
}

/// Appends the lines of a switch: its own, and those of its branches.
pub(crate) fn write_lines(
    out: &mut Text,
    names: &Topology,
    node: NodeId,
    switch: &Switch,
) -> Result<(), OutOfMemory>
    ensures { OnOk result (out.new ≡ out.old ++ switch_lines names.now node switch.now) }
{
    write_switch(
        out,
        names,
        node,
        switch.state(),
        switch.switched(),
        switch.free(),
        switch.slots(),
    )?;
    write_branches(out, names, node, switch)
}

/// How many branches a switch has.
pub(crate) fn count_branches(switch: &Switch) -> u64
    ensures { result ≡ length (entries switch.now.crossbar.branches) }
{
    switch.branches_are_few();
    let mut count = 0;
    let mut after = None;
    while let Some((input, _)) = switch.branch_at(after) {
        count += 1;
        after = Some(input);
    }
    count
}
