//! Rules of a controller in the simulation of a label's machine: each rule of a port, and a tick, is moves of the
//! machine of each label of a link at its controller.
//!
//! `law_controller_views` (`specs/Ready`) says what is so of the controller: it is sound, its ports' numbers aren't spent, and each
//! number has its field's width, so that what a port says can be read by its neighbour. The lemmas say
//! that it stays so behind each rule. There is no code that runs.
#![tactic(auto)]

ghost use Rattle.std.specs.Prelude.{◌≡◌, ◌<◌, ◌^◌, [], List, Some, ℕ};
ghost use Rattle.law_arrival_views.specs.world_model.Words.{PortNo, Addr, End, FlowId, FitsFields, Request, InRange, FitsMessage, at, Setup, Grant, grant_label, hears, counts, packet_flow, used, Linked, linked_at, at_port};
ghost use Rattle.law_arrival_views.specs.world_model.ifmp_wire.declared.message.Message.{Message};
ghost use Rattle.law_label_steps.specs.law_label_line.Cells.{Role};
ghost use Rattle.law_arrival_views.specs.world_model.port_model.Answers.{done};
ghost use Rattle.law_arrival_views.specs.world_model.port_model.Joins as joins;
ghost use Rattle.law_arrival_views.specs.world_model.port_model.Ticks as port_ticks;
ghost use Rattle.law_arrival_views.specs.world_model.Controller.{Acted};
ghost use Rattle.law_arrival_views.specs.world_model.Ticks.{ticks};
ghost use Rattle.law_arrival_views.specs.law_controller_facts.Sound.{IsSound};
ghost use Rattle.law_label_steps.specs.law_port_views.Link.{LinkLabel};
ghost use Rattle.law_arrival_views.specs.law_controller_views.Ends.{EndLeads};
ghost use Rattle.law_arrival_views.specs.law_controller_views.Lifted.{IsProper, IsReadable, IsLifted, Growing};
ghost use Rattle.law_arrival_views.specs.Cells.{CanHear};
ghost use Rattle.law_arrival_views.specs.law_controller_views.Ready.{IsReady, FitsLink, FitsTick};

/// What a port says, in range and with its fields' widths, is what its neighbour reads. It does nothing, and its
/// contract is the statement.
pub fn said_can_be_read()
    ensures { (address : Addr) (message : Message) → address.0 < 2 ^ 32 → InRange message → FitsMessage message → IsReadable address message }
{}

/// Each rule of a port of a controller that is ready leads the machine of each label of the port's link. A grant is
/// given back where no join to its label is left. It does nothing, and its contract is the statement.
pub fn rules_lead_lines<Like>()
    ensures hearing { (setups : List Setup) (a : Acted) (link : LinkLabel) (role : Role) (port : PortNo) (linked : Linked) (source : Addr) (message : Message)
        → IsReady setups a.controller → IsProper link → FitsLink link → linked_at a.controller port ≡ Some linked → source.0 < 2 ^ 32 → InRange message → FitsMessage message
        → CanHear link role a linked source message }
    ensures tick { (setups : List Setup) (a : Acted) (link : LinkLabel) (role : Role) (port : PortNo)
        → IsReady setups a.controller → IsProper link → FitsLink link → IsLifted link Like role a port port_ticks.ticks }
    ensures counting { (setups : List Setup) (a : Acted) (link : LinkLabel) (role : Role) (port : PortNo) (packet : List ℕ)
        → IsReady setups a.controller → IsProper link → FitsLink link → ((flow : FlowId) → packet_flow packet ≡ Some flow → FitsFields flow)
        → IsLifted link Like role a port (λ setup desk w. counts setup desk w packet) }
    ensures in_use { (setups : List Setup) (a : Acted) (link : LinkLabel) (role : Role) (port : PortNo) (number : ℕ)
        → IsReady setups a.controller → IsProper link → FitsLink link → IsLifted link Like role a port (λ setup desk w. used w number) }
    ensures answers { (setups : List Setup) (a : Acted) (link : LinkLabel) (role : Role) (port : PortNo) (request : Request)
        → IsReady setups a.controller → IsProper link → FitsLink link → IsLifted link Like role a port (λ setup desk w. done setup w request) }
    ensures parting { (setups : List Setup) (a : Acted) (link : LinkLabel) (role : Role) (port : PortNo) (number : ℕ)
        → IsReady setups a.controller → IsProper link → FitsLink link → IsLifted link Like role a port (λ setup desk w. joins.parted w number) }
    ensures giving { (setups : List Setup) (a : Acted) (link : LinkLabel) (role : Role) (port : PortNo) (grant : Grant)
        → IsReady setups a.controller → IsProper link → FitsLink link
        → ((linked : Linked) → linked_at a.controller port ≡ Some linked → at grant_label grant.label linked.port.grants ≡ Some grant)
        → (port ≡ link.port role → grant.label ≡ link.label → Like → ⊥) → IsLifted link Like role a port (λ setup desk w. joins.given_back w grant) }
{}

/// A controller that is ready stays so behind each rule of its ports, where the instances that were given out
/// fit: so no port's numbers are spent between rules. It does nothing, and its contract is the statement.
pub fn controllers_stay_ready()
    ensures hearing { (setups : List Setup) (a : Acted) (port : PortNo) (source : Addr) (message : Message) → source.0 < 2 ^ 32 → InRange message → FitsMessage message
        → (at_port a port (λ setup desk w. hears setup desk w source message)).numbers.instances < 2 ^ 32
        → IsReady setups a.controller → IsReady setups (at_port a port (λ setup desk w. hears setup desk w source message)).controller }
    ensures tick { (setups : List Setup) (a : Acted) (port : PortNo) → (at_port a port port_ticks.ticks).numbers.instances < 2 ^ 32
        → IsReady setups a.controller → IsReady setups (at_port a port port_ticks.ticks).controller }
    ensures in_use { (setups : List Setup) (a : Acted) (port : PortNo) (number : ℕ) → (at_port a port (λ setup desk w. used w number)).numbers.instances < 2 ^ 32
        → IsReady setups a.controller → IsReady setups (at_port a port (λ setup desk w. used w number)).controller }
    ensures answers { (setups : List Setup) (a : Acted) (port : PortNo) (request : Request) → (at_port a port (λ setup desk w. done setup w request)).numbers.instances < 2 ^ 32
        → IsReady setups a.controller → IsReady setups (at_port a port (λ setup desk w. done setup w request)).controller }
{}

/// A tick of a controller that is ready leads the machine of each label of each link of its node: the adjacency
/// with its switch, requests sent again, each port, and joins. Elsewhere frames are made and numbers given
/// out. It does nothing, and its contract is the statement.
pub fn ticks_lead_lines<Like>()
    ensures at_ends { (setups : List Setup) (link : LinkLabel) (role : Role) (a : Acted) → IsProper link → FitsLink link → IsReady setups a.controller → FitsTick a
        → EndLeads link Like role a [] (ticks a) [] }
    ensures elsewhere { (setups : List Setup) (a : Acted) → IsSound setups a.controller → Growing a (ticks a) }
    ensures node { (setups : List Setup) (a : Acted) → IsSound setups a.controller → (ticks a).controller.node ≡ a.controller.node }
{}
