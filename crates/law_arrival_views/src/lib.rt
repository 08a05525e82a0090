//! Arrivals at a controller in the simulation of a label's machine: what comes there is moves of the machine of each
//! label of each link of it, packets that are sent on, under a grant's label or on a default channel, and cells that
//! come from the switch.
//!
//! `specs/Packets` says what a packet has to be, `specs/Cells` what a cell. A message of the link's default
//! channel is heard by the port as it is by the machine; each other cell that the machine has is given up by both.
//! There is no code that runs.
#![tactic(auto)]

ghost use Rattle.std.specs.Prelude.{◌≡◌, [], ◌∷◌, List, ℕ};
ghost use Rattle.law_controller_views.specs.world_model.Words.{Mark, Cell, forwards_packet};
ghost use Rattle.law_controller_views.specs.law_label_line.Cells.{Role};
ghost use Rattle.law_controller_views.specs.law_label_line.Line.{Line};
ghost use Rattle.law_controller_views.specs.world_model.Controller.{Acted};
ghost use Rattle.law_controller_views.specs.world_model.Cells.{cell_comes};
ghost use Rattle.law_controller_views.specs.law_port_views.Link.{LinkLabel};
ghost use Rattle.law_controller_views.specs.Ends.{EndLeads, Pieces, Net, Goes, asking, placed};
ghost use Rattle.law_controller_views.specs.Queues.{awaited};
ghost use Rattle.law_controller_views.specs.Lifted.{IsProper};
ghost use Rattle.law_arrival_views.specs.Packets.{IsFree, IsPlain, HasLabelGrants};
ghost use Rattle.law_arrival_views.specs.Cells.{CanArrive};

/// A packet at a node is delivered, dropped or sent on: moves of the machine of each label of each link of the
/// node, also where it goes under the label itself. It does nothing, and its contract is the statement.
pub fn packets_lead_lines<Like>()
    ensures { (link : LinkLabel) (role : Role) (a : Acted) (came : Mark) (packet : List ℕ)
        → IsProper link → IsFree a came → HasLabelGrants a.controller → IsPlain packet → EndLeads link Like role a [] (forwards_packet a came packet) [] }
{}

/// A cell comes from the switch to the controller at an end of a link: moves of the machine of each label of the
/// link. It joins the chain of its channel or is given up, and a frame that is whole is tested; a message that
/// bears on the label is heard. It does nothing, and its contract is the statement.
pub fn cells_lead_lines<Like>()
    ensures { (link : LinkLabel) (role : Role) (pieces : Pieces) (a : Acted) (cell : Cell) (cells : List Cell) (line : Line)
        → IsProper link → pieces.waiting role ≡ cell ∷ cells → Net link Like (placed role pieces a) (asking role []) line → CanArrive link Like role a cell
        → Goes link Like (placed role (awaited role pieces cells) (cell_comes a cell)) (asking role []) line }
{}
