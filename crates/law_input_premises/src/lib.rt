//! Preconditions of the simulation of an input's machine: when all that a controller does may be done, as that machine
//! tells. What `law_input_steps` asks of each call holds of every controller between events.
//!
//! `specs/Steady` has what is so of a controller between events, `specs/Read` that what it asks is read as
//! it was said. The proof goes over what `law_controller` proves of each rule: a request may be asked since
//! the desk is in order behind it (`proofs/Asking`), and so what a port's reset asks (`proofs/Resetting`),
//! a rule of a port (`proofs/Working`), releases, changes of routes, joins, answers and ticks. There is no
//! code that runs.
#![tactic(auto)]

ghost use Rattle.std.specs.Prelude.{◌≡◌, ◌≤◌, ◌<◌, ◌^◌, ℕ, Bool, Option, Some, find, true};
ghost use Rattle.law_controller.specs.world_model.Words.{End, NodeId, PortNo, Addr, ticked, gsmp_answer, greeting_of, said_by, SideByInstances, greeting, HelloKind, Standing, without_request, hears, linked_at, with_desk};
ghost use Rattle.law_controller.specs.world_model.gsmp_wire.declared.message.Message.TheVariants.{Adjacency};
ghost use Rattle.law_controller.specs.world_model.ifmp_wire.declared.message.Message.{Message};
ghost use Rattle.law_controller.specs.law_port_facts.Port.{Lives};
ghost use Rattle.law_controller.specs.world_model.Controller.{Acted};
ghost use Rattle.law_input_steps.specs.law_input_views.Shown.{controller_of, switch_of};
ghost use Rattle.law_input_steps.specs.Asking.{CanApply, IsReadable};
ghost use Rattle.law_input_steps.specs.Hearing.{Reads};
ghost use Rattle.law_input_steps.specs.Ticks.{CanTick};
ghost use Rattle.law_input_steps.specs.Done.{CanFinish, CanTakeEach};
ghost use Rattle.law_input_premises.specs.Steady.{IsSteady};

/// What a tick, a message of IFMP, an answer and a change of routes ask may be done. It does nothing, as
/// all functions here, and its contract is the statement.
pub fn calls_may_be_made()
    ensures ticks { (input : End) (a : Acted) → 1 ≤ input.port.0 → IsSteady a.controller → Reads (gsmp_answer (ticked a.controller.adjacency).answer)
        → CanTick input a }
    ensures hears { (input : End) (a : Acted) (port : PortNo) (source : Addr) (message : Message) → 1 ≤ input.port.0 → IsSteady a.controller → Lives message
        → CanApply input a (λ setup desk w. hears setup desk w source message) (linked_at a.controller port) }
    ensures answered { (input : End) (a : Acted) (s : Standing) (test : Standing → Bool) → 1 ≤ input.port.0 → IsSteady a.controller
        → find test a.controller.desk.standing ≡ Some s → a.controller.has_met ≡ true
        → CanFinish input (with_desk a (without_request a.controller.desk s)) s.request }
    ensures changes { (input : End) (a : Acted) → 1 ≤ input.port.0 → IsSteady a.controller → CanTakeEach input a a.controller.waiting }
{}

/// A greeting between a controller and its switch is read as it was said, while instances have 32 bits.
pub fn greetings_are_read()
    ensures controller { (node : NodeId) (side : SideByInstances) (kind : HelloKind) (sender receiver : ℕ) → node.0 < 256
        → side.own < 2 ^ 32 → side.stored < 2 ^ 32 → sender < 2 ^ 32 → receiver < 2 ^ 32
        → IsReadable (Adjacency (greeting_of (greeting (said_by (controller_of node) (switch_of node)) side kind sender receiver))) }
    ensures switch { (node : NodeId) (side : SideByInstances) (kind : HelloKind) (sender receiver : ℕ) → node.0 < 256
        → side.own < 2 ^ 32 → side.stored < 2 ^ 32 → sender < 2 ^ 32 → receiver < 2 ^ 32
        → IsReadable (Adjacency (greeting_of (greeting (said_by (switch_of node) (controller_of node)) side kind sender receiver))) }
{}
