//! What a request changes of the branches.

ghost use Rattle.std.specs.Prelude.{◌≡◌, true, nat_le, OnOk};
ghost use Rattle.std.specs.FinMap.{keys};
ghost use Rattle.std.specs.List.{list_all};
ghost use Rattle.crossbar_model.specs.Channels.{is_connectable};
ghost use Rattle.gsmp_switch.specs.Exchange.{Store, changed_in, with_changed};
ghost use Rattle.world_model.specs.Requests.{Changed, added, all_ended, branches_after, deleted_all, branch_ended, moved_to};
ghost use Rattle.world_model.specs.Failures.{named_ends};

use crate::cut::note_cut;
use crate::exchange::Exchange;
use gsmp_wire::TAKE_DOWN;
use link_model::Notes;
use net_types::{End, LAST_PORT, OutOfMemory, PortNo};
use world_model::Request;

/// Makes a branch, where the input has none.
fn add(exchange: &mut Exchange, input: End, output: End)
    requires input { is_connectable exchange.old.ports exchange.old.vpis input ≡ true }
    requires output { is_connectable exchange.old.ports exchange.old.vpis output ≡ true }
    ensures { exchange.new ≡ record exchange.old { crossbar = record exchange.old.crossbar { branches = added exchange.old.crossbar.branches input output } } }
{
    if exchange.branch(input).is_none() {
        exchange.connect(input, output);
    }
}

/// Moves the branch of an input, if it has one.
fn move_branch(
    exchange: &mut Exchange,
    input: End,
    to: End,
    notes: &mut Notes,
) -> Result<(), OutOfMemory>
    requires input { is_connectable exchange.old.ports exchange.old.vpis input ≡ true }
    requires output { is_connectable exchange.old.ports exchange.old.vpis to ≡ true }
    ensures linked { exchange.new.ports ≡ exchange.old.ports }
    ensures exchange { OnOk result (exchange.new ≡ with_changed exchange.old (moved_to (changed_in exchange.old notes.old) input to)) }
    ensures notes { OnOk result (notes.new ≡ (moved_to (changed_in exchange.old notes.old) input to).notes) }
{
    if exchange.branch(input).is_some() {
        let mark = exchange.move_to(input, to);
        note_cut(notes, mark)?;
    }
    Ok(())
}

/// Ends the branch of an input, if it has one.
fn end(exchange: &mut Exchange, input: End, notes: &mut Notes) -> Result<(), OutOfMemory>
    ensures linked { exchange.new.ports ≡ exchange.old.ports }
    ensures exchange { OnOk result (exchange.new ≡ with_changed exchange.old (branch_ended (changed_in exchange.old notes.old) input)) }
    ensures notes { OnOk result (notes.new ≡ (branch_ended (changed_in exchange.old notes.old) input).notes) }
{
    if exchange.branch(input).is_some() {
        let cut = exchange.disconnect(input);
        note_cut(notes, cut)?;
    }
    Ok(())
}

/// Ends the branches of all inputs of a port, in ascending order.
fn clear(exchange: &mut Exchange, port: PortNo, notes: &mut Notes) -> Result<(), OutOfMemory>
    ensures linked { exchange.new.ports ≡ exchange.old.ports }
    ensures exchange { OnOk result (exchange.new ≡ with_changed exchange.old (deleted_all (changed_in exchange.old notes.old) port)) }
    ensures notes { OnOk result (notes.new ≡ (deleted_all (changed_in exchange.old notes.old) port).notes) }
    ensures ports { OnOk result (list_all (λ input. nat_le input.port.0 8) (keys exchange.new.crossbar.branches) ≡ true) }
{
    while let Some(input) = exchange.first_of(port) {
        end(exchange, input, notes)?;
    }
    Ok(())
}

/// Ends all branches, in ascending order of their inputs.
pub(crate) fn clear_all(exchange: &mut Exchange, notes: &mut Notes) -> Result<(), OutOfMemory>
    ensures linked { exchange.new.ports ≡ exchange.old.ports }
    ensures exchange { OnOk result (exchange.new ≡ with_changed exchange.old (all_ended (changed_in exchange.old notes.old) (keys exchange.old.crossbar.branches))) }
    ensures notes { OnOk result (notes.new ≡ (all_ended (changed_in exchange.old notes.old) (keys exchange.old.crossbar.branches)).notes) }
{
    for number in 0..=LAST_PORT {
        clear(exchange, PortNo(number), notes)?;
    }
    Ok(())
}

/// Does to the branches what a request asks that doesn't fail.
pub(crate) fn change(
    exchange: &mut Exchange,
    request: &Request,
    notes: &mut Notes,
) -> Result<(), OutOfMemory>
    requires { list_all (is_connectable exchange.old.ports exchange.old.vpis) (named_ends request.now) ≡ true }
    ensures linked { exchange.new.ports ≡ exchange.old.ports }
    ensures exchange { OnOk result (exchange.new ≡ with_changed exchange.old (branches_after (changed_in exchange.old notes.old) request.now)) }
    ensures notes { OnOk result (notes.new ≡ (branches_after (changed_in exchange.old notes.old) request.now).notes) }
{
    match *request {
        Request::AddBranch { input, output } => {
            add(exchange, input, output);
            Ok(())
        }
        Request::MoveBranch { input, from: _, to } => move_branch(exchange, input, to, notes),
        Request::DeleteTree { input } => end(exchange, input, notes),
        Request::VerifyTree { input: _ } => Ok(()),
        Request::DeleteAll { port } => clear(exchange, port, notes),
        Request::PortManagement { port, function } => {
            if function == TAKE_DOWN {
                clear(exchange, port, notes)
            } else {
                Ok(())
            }
        }
        Request::AllPorts => Ok(()),
    }
}
