//! The simulation relation of a network and the machines of its labels and inputs: what it shows of the machine of each
//! label of each link and of each input of each switch, and what is so of every network in a run as far as the law of
//! these machines needs it.
//!
//! `specs/Shown` has the relation of a network and the machine of a label, `specs/Pairs` the joins that a
//! switch has or may be asked to make, `specs/Marks` what cells mean, and `specs/Between` all that
//! holds between controllers, switches and links, as one record. There is no code that runs.
#![tactic(auto)]

ghost use Rattle.std.specs.Prelude.{◌≡◌, [], Some};
ghost use Rattle.law_controller_views.specs.world_model.Words.{NodeId, World, Site, site_at};
ghost use Rattle.law_controller_views.specs.law_label_line.Cells.{Role};
ghost use Rattle.law_controller_views.specs.law_label_line.Line.{Line};
ghost use Rattle.law_controller_views.specs.world_model.Controller.{Acted};
ghost use Rattle.law_controller_views.specs.world_model.World.{at_controller};
ghost use Rattle.law_controller_views.specs.law_port_views.Link.{LinkLabel};
ghost use Rattle.law_controller_views.specs.Ends.{EndLeads};
ghost use Rattle.law_controller_views.specs.Lifted.{Growing};
ghost use Rattle.law_world_views.specs.Shown.{WorldShows, WorldGoes, AreApart, acting};

/// The controller of any node acts: at an end of a link what leads the machine of a label there leads the
/// network, and at any other node frames are made and numbers given out. It does nothing, and its
/// contract is the statement.
pub fn controllers_lead_worlds<Like>()
    ensures { (link : LinkLabel) (w : World) (line : Line) (node : NodeId) (act : Acted → Acted) → AreApart link
        → ((site : Site) → site_at w node ≡ Some site → (act (acting w site)).controller.node ≡ site.controller.node)
        → ((site : Site) → site_at w node ≡ Some site → Growing (acting w site) (act (acting w site)))
        → ((role : Role) (site : Site) → site_at w node ≡ Some site → node.0 ≡ (link.node role).0
        → EndLeads link Like role (acting w site) [] (act (acting w site)) [])
        → WorldShows link Like w line → WorldGoes link Like (at_controller w node act) line }
{}

/// Less may be joined than before: the network shows the same state of the machine. It does nothing, and its contract is
/// the statement.
pub fn less_is_joined<Less, Like>()
    ensures { (link : LinkLabel) (w : World) (line : Line) → (Less → Like) → WorldShows link Like w line → WorldShows link Less w line }
{}
