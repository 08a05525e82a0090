//! The simulation relation of a link and the machine of one label on it: what the two controllers and switches of the
//! link show of that machine, and how what a controller does is moves of it.
//!
//! `specs/Ends` has the relation: a controller at an end of the link, the queues between the two, and
//! all of it. `specs/Lifted` says what a rule of a port has to be for its controller to lead the machine, and
//! `specs/Queues` what a switch does with a cell. Each law stands once for both ends. There is no code
//! that runs.
#![tactic(auto)]

ghost use Rattle.std.specs.Prelude.{◌≡◌, [], ◌∷◌, ◌≤◌, List, Some, ℕ};
ghost use Rattle.law_controller_facts.specs.world_model.Words.{PortNo, Cell, Request, Action, Linked, linked_at, begins, node_resets, asks, Rule, at_port, resets_port};
ghost use Rattle.law_shown_cells.specs.law_label_line.Cells.{Role};
ghost use Rattle.law_shown_cells.specs.law_label_line.Line.{Line};
ghost use Rattle.law_controller_facts.specs.world_model.Controller.{Acted};
ghost use Rattle.law_shown_cells.specs.law_port_views.Link.{LinkLabel};
ghost use Rattle.law_controller_views.specs.Ends.{EndLeads, Quietly, Net, Goes, Pieces, asking, idle, placed};
ghost use Rattle.law_controller_views.specs.Lifted.{IsProper, IsLifted, Growing};
ghost use Rattle.law_controller_views.specs.Queues.{carried, crossed, awaited, Outcome, Passage};

/// What a controller does at an end of a link leads the machine of each label of the link: a rule that
/// leads it at the link's port, every rule of another port, requests, resets of ports and of the node; and
/// what leads it at the end leads the whole of the link. It does nothing, and its contract is the
/// statement.
pub fn controllers_lead_lines<Like>()
    ensures rules { (link : LinkLabel) (role : Role) (a : Acted) (port : PortNo) (rule : Rule)
        → IsProper link → IsLifted link Like role a port rule → EndLeads link Like role a [] (at_port a port rule) [] }
    ensures requests { (link : LinkLabel) (role : Role) (a : Acted) (request : Request) (out : List Action)
        → IsProper link → EndLeads link Like role a out (asks a request) out }
    ensures port_resets { (link : LinkLabel) (role : Role) (a : Acted) (port : PortNo) (out : List Action)
        → IsProper link → EndLeads link Like role a out (resets_port a port) out }
    ensures node_resets { (link : LinkLabel) (role : Role) (a : Acted) (out : List Action)
        → IsProper link → EndLeads link Like role a out (node_resets a) out }
    ensures quiet { (link : LinkLabel) (role : Role) (a b : Acted) (out : List Action)
        → Quietly link role a b → EndLeads link Like role a out b out }
    ensures links { (link : LinkLabel) (role : Role) (pieces : Pieces) (a b : Acted) (before after : List Action) (line : Line)
        → EndLeads link Like role a before b after → Net link Like (placed role pieces a) (asking role before) line
        → Goes link Like (placed role pieces b) (asking role after) line }
    ensures elsewhere { (a : Acted) (port : PortNo) (rule : Rule)
        → ((linked : Linked) → linked_at a.controller port ≡ Some linked → a.numbers.instances ≤ (rule linked.setup a.controller.desk (begins a linked)).instances)
        → Growing a (at_port a port rule) }
{}

/// Whatever becomes of the first cell of a queue between the two controllers, the machine follows it. It
/// does nothing, and its contract is the statement.
pub fn cells_lead_lines<Like>()
    ensures from_controller { (link : LinkLabel) (role : Role) (pieces : Pieces) (line : Line) (c : Cell) (cs os : List Cell)
        → (pieces.controller role).queue ≡ c ∷ cs → Net link Like pieces idle line → Outcome link role pieces c os
        → Goes link Like (carried role pieces cs os) idle line }
    ensures over_the_link { (link : LinkLabel) (role : Role) (pieces : Pieces) (line : Line) (c : Cell) (os ws : List Cell)
        → pieces.output role ≡ c ∷ os → Net link Like pieces idle line → Passage link role pieces c ws
        → Goes link Like (crossed role pieces os ws) idle line }
    ensures lost { (link : LinkLabel) (role : Role) (pieces : Pieces) (line : Line) (c : Cell) (ws : List Cell)
        → pieces.waiting role ≡ c ∷ ws → Net link Like pieces idle line → Goes link Like (awaited role pieces ws) idle line }
{}
