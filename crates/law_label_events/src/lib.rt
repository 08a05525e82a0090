//! Events in the simulation of a label's machine: those of a network, as moves of the machine of each label of each
//! link.
//!
//! `specs/Queues` says where a cell may be, `specs/Acts` what has to be so of a controller that acts. What
//! may be joined to the label stays as it is: where an event leaves less of it, `law_world_views` says that the
//! same state is shown. There is no code that runs.
#![tactic(auto)]

ghost use Rattle.std.specs.Prelude.{◌≡◌, ◌<◌, ◌∷◌, ◌+◌, ℕ, List, None, Some};
ghost use Rattle.world_model.specs.Words.{End, NodeId, Place, Down, Up, Out, Cell, payload_of, queue_of, control_port, RouteChange, label_end, Topology, World, Site, site_at, place_node, next, put_away, output_at};
ghost use Rattle.law_controller_lifts.specs.law_label_line.Cells.{Upstream};
ghost use Rattle.law_controller_lifts.specs.law_label_line.Line.{Line};
ghost use Rattle.world_model.specs.network_model.declared.link.LinkEnd.{LinkEnd};
ghost use Rattle.world_model.specs.network_model.declared.event.Event.TheVariants.{Inject, Carry, Lose, Tick, TickSwitch, Restart, RestartSwitch, Route};
ghost use Rattle.world_model.specs.Topology.{peer_of};
ghost use Rattle.law_controller_lifts.specs.law_port_views.Link.{LinkLabel};
ghost use Rattle.law_controller_lifts.specs.law_controller_views.Lifted.{IsProper};
ghost use Rattle.law_controller_lifts.specs.law_arrival_views.Packets.{HasLabelGrants};
ghost use Rattle.law_controller_lifts.specs.law_controller_views.Ready.{FitsLink};
ghost use Rattle.law_world_views.specs.Shown.{WorldShows, WorldGoes, AreApart};
ghost use Rattle.law_label_events.specs.Queues.{HasQueues, HasLowPorts, IsLinkPlace, LeadsOut, LeadsFromLinks, IsAcross};
ghost use Rattle.law_label_events.specs.Acts.{CanTick, Arrives};

/// A cell is lost at the front of any queue of a network: the machine of each label of each link follows. It does
/// nothing, and its contract is the statement.
pub fn losses_lead_lines<Like>()
    ensures { (topology : Topology) (link : LinkLabel) (w : World) (line : Line) (place : Place) → IsProper link → HasLowPorts link → AreApart link
        → ((site : Site) → site_at w (place_node place) ≡ Some site → HasQueues site) → IsLinkPlace place
        → WorldShows link Like w line → WorldGoes link Like (next topology w (Lose place)) line }
{}

/// A cell comes to a controller from its switch, a packet enters the network there, the controller restarts or
/// ticks, or a change of routes comes to it: the machine of each label of each link follows. It does nothing, and its
/// contract is the statement.
pub fn controllers_lead_lines<Like>()
    ensures cells { (topology : Topology) (link : LinkLabel) (w : World) (line : Line) (node : NodeId) → IsProper link → AreApart link
        → ((site : Site) → site_at w node ≡ Some site → HasQueues site)
        → ((site : Site) (cell : Cell) (cells : List Cell) → site_at w node ≡ Some site → queue_of site.switch.crossbar control_port ≡ cell ∷ cells
        → Arrives link Like (put_away w) node site cell)
        → WorldShows link Like w line → WorldGoes link Like (next topology w (Carry (Up node))) line }
    ensures packets { (topology : Topology) (link : LinkLabel) (w : World) (line : Line) (node : NodeId) (octets : List ℕ) → IsProper link → AreApart link
        → payload_of w.notes.frames (record { packet = w.sent + 1; frame = 1 }) ≡ None
        → ((site : Site) → site_at w node ≡ Some site → HasLabelGrants site.controller)
        → WorldShows link Like w line → WorldGoes link Like (next topology w (Inject node octets)) line }
    ensures restarts { (topology : Topology) (link : LinkLabel) (w : World) (line : Line) (node : NodeId) → IsProper link → AreApart link
        → WorldShows link Like w line → WorldGoes link Like (next topology w (Restart node)) line }
    ensures ticks { (topology : Topology) (link : LinkLabel) (w : World) (line : Line) (node : NodeId) → IsProper link → FitsLink link → AreApart link
        → ((site : Site) → site_at w node ≡ Some site → CanTick (put_away w) site)
        → WorldShows link Like w line → WorldGoes link Like (next topology w (Tick node)) line }
    ensures routes { (topology : Topology) (link : LinkLabel) (w : World) (line : Line) (node : NodeId) (change : RouteChange) → IsProper link → AreApart link
        → WorldShows link Like w line → WorldGoes link Like (next topology w (Route node change)) line }
{}

/// A cell comes to a switch from its controller, or the switch ticks or restarts: the machine of each label of each
/// link follows. It does nothing, and its contract is the statement.
pub fn switches_lead_lines<Like>()
    ensures cells { (topology : Topology) (link : LinkLabel) (w : World) (line : Line) (node : NodeId) → IsProper link → HasLowPorts link → AreApart link
        → ((site : Site) → site_at w node ≡ Some site → HasQueues site)
        → ((site : Site) (cell : Cell) (cells : List Cell) → site_at w node ≡ Some site → site.controller.queue ≡ cell ∷ cells → LeadsOut site cell)
        → WorldShows link Like w line → WorldGoes link Like (next topology w (Carry (Down node))) line }
    ensures ticks { (topology : Topology) (link : LinkLabel) (w : World) (line : Line) (node : NodeId) → IsProper link → AreApart link
        → ((site : Site) → site_at w node ≡ Some site → HasQueues site)
        → WorldShows link Like w line → WorldGoes link Like (next topology w (TickSwitch node)) line }
    ensures restarts { (topology : Topology) (link : LinkLabel) (w : World) (line : Line) (node : NodeId) → IsProper link → AreApart link
        → ((site : Site) → site_at w node ≡ Some site → HasQueues site)
        → WorldShows link Like w line → WorldGoes link Like (next topology w (RestartSwitch node)) line }
{}

/// A cell comes over a link to the switch at its other end: to the controller there, out under a label or nowhere; the
/// machine of each label of each link follows. Where a branch leads to the label from a port of a link, it may be joined. It
/// does nothing, and its contract is the statement.
pub fn links_lead_lines<Like>()
    ensures { (topology : Topology) (link : LinkLabel) (w : World) (line : Line) (from : LinkEnd) → IsProper link → HasLowPorts link → AreApart link
        → 0 < from.port.0 → ((far : LinkEnd) → peer_of topology from.node from.port ≡ Some far → IsAcross link from far)
        → ((node : NodeId) (site : Site) → site_at w node ≡ Some site → HasQueues site)
        → ((node : NodeId) (site : Site) → site_at w node ≡ Some site → LeadsFromLinks site)
        → ((input : End) → 0 < input.port.0 → output_at w (link.node Upstream) input ≡ Some (label_end (link.port Upstream) link.label) → Like)
        → WorldShows link Like w line → WorldGoes link Like (next topology w (Carry (Out from.node from.port))) line }
{}
