//! Steps of the simulation of an input's machine: what a site does, as moves of the machine of each input of its
//! switch. How cells leave and join the queues of the control link, what the controller asks, hears and resets, and
//! what the switch does.
//!
//! `specs/Part` takes apart what a site shows of an input's machine, so that each step speaks of what it
//! changes alone; `specs/Asking` says when a request may be asked, `specs/Hearing` what is asked of what
//! comes, `specs/Meeting` what an answer leaves. There is no code that runs.
#![tactic(auto)]

ghost use Rattle.std.specs.Prelude.{◌≡◌, ℕ, ◌∷◌, [], false, true, flat_map, List, Ok, Some, Option};
ghost use Rattle.std.specs.FinMap.{get};
ghost use Rattle.law_input_views.specs.world_model.Words.{End, NodeId, PortNo, Greeting, GivenOut, is_estab, ticked, gsmp_answer, gsmp_received, Cell, popped, same_end, Request, PortRow, Frame, Standing, sent_again, message_of, Head, without_request, Unknown, Done, Failed, answered, control_port, asked_in, gsmp_cell, restarted, switched_cell, tick_comes, Controller, linked_at, with_desk, asks, withdraws_input, Rule, at_port, node_resets, node_restarts, sends_again, answer_comes, default_branches, empties, ends_meeting, up_ports, takes_changes, Site};
ghost use Rattle.law_input_views.specs.world_model.crossbar_model.Crossbar.{input_of};
ghost use Rattle.law_input_views.specs.world_model.gsmp_wire.declared.message.Message.{Message};
ghost use Rattle.law_input_views.specs.world_model.gsmp_wire.declared.request.Request.TheVariants.{AllPorts};
ghost use Rattle.law_input_views.specs.ordered_lists.Ordered.{Every};
ghost use Rattle.law_input_views.specs.law_branch_line.Words.{ToController, SwitchGreets, Answer, Success};
ghost use Rattle.law_input_views.specs.law_branch_line.Line.{Line};
ghost use Rattle.law_input_views.specs.world_model.switch_model.declared.request.Asked.{Asked};
ghost use Rattle.law_input_views.specs.world_model.Switch as switches;
ghost use Rattle.law_input_views.specs.world_model.Controller as controllers;
ghost use Rattle.law_input_views.specs.world_model.Cells.{cell_comes};
ghost use Rattle.law_input_views.specs.world_model.Ticks.{ticks};
ghost use Rattle.law_input_views.specs.world_model.Gsmp.{steps};
ghost use Rattle.law_input_views.specs.world_model.Meeting.{takes_success};
ghost use Rattle.law_input_views.specs.law_shown_cells.Seen.{IsUnmade};
ghost use Rattle.law_input_views.specs.Words.{is_own_greeting, word_of};
ghost use Rattle.law_input_views.specs.Shown.{InputShows, IsAllPorts, controller_of, switch_of};
ghost use Rattle.law_input_views.specs.Reaching.{Follows, Anything};
ghost use Rattle.law_input_steps.specs.Part.{Part, part_of, part_at, part_beside, IsNumbered, Stands, Reaches, AnyLine, Leads};
ghost use Rattle.law_input_steps.specs.Asking.{MayAsk, CanApply, CanEach, IsReadable, IsReady};
ghost use Rattle.law_input_steps.specs.Hearing.{Comes, ComesBack, HasQueue, IsHeld, LeadsAway, MayHold, Reads};
ghost use Rattle.law_input_steps.specs.Ticks.{CanTick};
ghost use Rattle.law_input_steps.specs.Done.{CanFinish, CanTakeEach};
ghost use Rattle.law_input_steps.specs.Meeting.{in_desk, met_after, AfterAnswer, answered_part, IsAround, MayEmpty};

/// What a site shows of an input's machine, taken apart and put together. It does nothing, as all
/// functions here, and its contract is the statement.
pub fn lines_are_taken_apart()
    ensures apart { (node : NodeId) (input : End) (site : Site) (frames : List Frame) (numbers : GivenOut) (line : Line)
        → IsUnmade numbers.controls frames → IsNumbered site.controller.desk → InputShows node input site frames numbers.instances line
        → Stands node input (part_of input site frames numbers) line }
    ensures together { (node : NodeId) (input : End) (site : Site) (frames : List Frame) (numbers : GivenOut) (line : Line)
        → Stands node input (part_of input site frames numbers) line → InputShows node input site frames numbers.instances line }
    ensures follows { (node : NodeId) (input : End) (site : Site) (frames : List Frame) (numbers : GivenOut) (line : Line)
        → Reaches node input (part_of input site frames numbers) AnyLine line → Follows node input site frames numbers.instances Anything line }
{}

/// A cell of the control link is lost, on either way; one comes to the switch or to the controller on
/// the GSMP channel, is kept or skipped, finds no slot, or ends a frame that is read; one of another
/// channel goes out on its branch, or finds none or no slot.
pub fn cells_are_moves()
    ensures lost_to_switch { (node : NodeId) (input : End) (p : Part) (cell : Cell) (cells : List Cell) → p.queue ≡ cell ∷ cells
        → Leads node input p (record p { queue = cells }) }
    ensures lost_to_controller { (node : NodeId) (input : End) (p : Part) (cell : Cell) (cells : List Cell) → p.back ≡ cell ∷ cells
        → Leads node input p (record p { back = cells }) }
    ensures comes_to_switch { (node : NodeId) (input : End) (c : Controller) (a : switches.ActedSwitch) (cell : Cell) (cells : List Cell) → Comes c a cell cells
        → Leads node input (part_beside input c a) (part_beside input (record c { queue = cells }) (gsmp_cell a cell)) }
    ensures goes_out { (node : NodeId) (input : End) (c : Controller) (a : switches.ActedSwitch) (port : PortNo) (cell : Cell) → HasQueue a.switch
        → LeadsAway (get a.switch.crossbar.branches (input_of port cell))
        → Leads node input (part_beside input c a) (part_beside input c (switched_cell a port cell)) }
    ensures comes_to_controller { (node : NodeId) (input : End) (switch : switches.Switch) (a : controllers.Acted) (cell : Cell) (cells : List Cell)
        → ComesBack node input switch a cell cells
        → Leads node input (part_at input switch a) (part_at input (record switch { crossbar = popped switch.crossbar control_port }) (cell_comes a cell)) }
{}

/// The switch ticks and restarts.
pub fn switches_are_moves()
    ensures ticks { (node : NodeId) (input : End) (c : Controller) (a : switches.ActedSwitch) → HasQueue a.switch → Reads (gsmp_answer (ticked a.switch.adjacency).answer)
        → Leads node input (part_beside input c a) (part_beside input c (tick_comes a)) }
    ensures restarts { (node : NodeId) (input : End) (c : Controller) (a : switches.ActedSwitch)
        → Leads node input (part_beside input c a) (part_beside input c (restarted a)) }
{}

/// The controller asks a request, on the input or elsewhere, withdraws what stands on another input,
/// sends again what stands, and does what a rule of a port asks.
pub fn requests_are_moves()
    ensures asks { (node : NodeId) (input : End) (switch : switches.Switch) (a : controllers.Acted) (request : Request)
        → MayAsk input a request → Leads node input (part_at input switch a) (part_at input switch (asks a request)) }
    ensures withdraws { (node : NodeId) (input other : End) (switch : switches.Switch) (a : controllers.Acted) → same_end input other ≡ false
        → Leads node input (part_at input switch a) (part_at input switch (withdraws_input a other)) }
    ensures again { (node : NodeId) (input : End) (switch : switches.Switch) (a : controllers.Acted) → Every (IsReady a.controller.desk) (sent_again a.controller.desk)
        → Leads node input (part_at input switch a) (part_at input switch (sends_again a)) }
    ensures port { (node : NodeId) (input : End) (switch : switches.Switch) (a : controllers.Acted) (port : PortNo) (rule : Rule)
        → CanApply input a rule (linked_at a.controller port)
        → Leads node input (part_at input switch a) (part_at input switch (at_port a port rule)) }
{}

/// The node of the controller is reset and restarts; its adjacency ticks.
pub fn resets_are_moves()
    ensures resets { (node : NodeId) (input : End) (switch : switches.Switch) (a : controllers.Acted)
        → Leads node input (part_at input switch a) (part_at input switch (node_resets a)) }
    ensures restarts { (node : NodeId) (input : End) (switch : switches.Switch) (a : controllers.Acted)
        → Leads node input (part_at input switch a) (part_at input switch (node_restarts a)) }
    ensures ticks { (node : NodeId) (input : End) (switch : switches.Switch) (a : controllers.Acted) → Reads (gsmp_answer (ticked a.controller.adjacency).answer)
        → Leads node input (part_at input switch a) (part_at input switch (steps a (ticked a.controller.adjacency))) }
{}

/// The controller takes the one message that it has gathered, whatever its frame holds: a greeting of its switch, on which it may
/// enter Estab and ask for all ports; an answer to nothing that stands; a failure; a success; the ports,
/// each of which it asks to be emptied.
pub fn answers_are_moves()
    ensures greeted { (node : NodeId) (input : End) (switch : switches.Switch) (a : controllers.Acted) (line : Line) (greeting : Greeting)
        → is_own_greeting (switch_of node) (controller_of node) greeting ≡ true → IsReadable (message_of [] 1 AllPorts)
        → (is_estab a.controller.adjacency.state ≡ false → a.controller.has_met ≡ false) → Reads (gsmp_answer (gsmp_received a.controller.adjacency greeting).answer)
        → Stands node input (part_at input switch a) (record line { at_controller = [] })
        → Reaches node input (part_at input switch (steps a (gsmp_received a.controller.adjacency greeting))) AnyLine
        (record line { at_controller = SwitchGreets greeting.kind greeting.sender.instance.0 greeting.receiver.instance.0 ∷ [] }) }
    ensures held { (node : NodeId) (input : End) (switch : switches.Switch) (a : controllers.Acted) (payload : List ℕ) → MayHold node input switch a payload
        → IsHeld node input switch a payload }
    ensures unknown { (node : NodeId) (input : End) (switch : switches.Switch) (a : controllers.Acted) (message : Message) (line : Line) (word : ToController)
        → answered a.controller.desk message ≡ Unknown → Stands node input (part_at input switch a) (record line { at_controller = [] })
        → Reaches node input (part_at input switch (answer_comes a message)) AnyLine (record line { at_controller = word ∷ [] }) }
    ensures failed { (node : NodeId) (input : End) (switch : switches.Switch) (a : controllers.Acted) (message : Message) (s : Standing) (code : ℕ) (line : Line)
        (word : ToController) → answered a.controller.desk message ≡ Failed s code → Stands node input (part_at input switch a) (record line { at_controller = [] })
        → Reaches node input (part_at input switch (answer_comes a message)) AnyLine (record line { at_controller = word ∷ [] }) }
    ensures done { (node : NodeId) (input : End) (switch : switches.Switch) (a : controllers.Acted) (message : Message) (asked : Asked) (head : Head) (s : Standing)
        (line : Line) (under : ℕ) → asked_in message ≡ Some asked → in_desk message head a.controller.desk ≡ Some s → (IsAllPorts s.request → ⊥)
        → is_estab a.controller.adjacency.state ≡ true → Stands node input (part_at input switch a) (record line { at_controller = [] })
        → Reaches node input (answered_part (part_at input switch a) s)
        (AfterAnswer input s a.controller.has_met (met_after a.controller.has_met (without_request a.controller.desk s).standing))
        (record line { at_controller = Answer under head.number (word_of input asked.request) Success ∷ [] }) }
    ensures ports { (node : NodeId) (input : End) (switch : switches.Switch) (a : controllers.Acted) (message : Message) (asked : Asked) (head : Head) (s : Standing)
        (rows : List PortRow) (line : Line) (under : ℕ) (below above : List PortNo)
        → let b : controllers.Acted = with_desk a (record (without_request a.controller.desk s) { rows = rows }) in
        asked_in message ≡ Some asked → in_desk message head a.controller.desk ≡ Some s → a.controller.desk.standing ≡ s ∷ [] → s.request ≡ AllPorts
        → a.controller.has_met ≡ false → IsAround input (record { 0 = 0 } ∷ up_ports b.controller) below above line
        → MayEmpty (part_at input switch b) (record { 0 = 0 } ∷ up_ports b.controller)
        → Stands node input (part_at input switch a) (record line { at_controller = [] })
        → Reaches node input (part_at input switch (empties b)) AnyLine
        (record line { at_controller = Answer under head.number (word_of input asked.request) Success ∷ [] }) }
{}

/// A whole tick of the controller: its adjacency with the switch, the requests that stand, each port in
/// turn, and joins.
pub fn ticks_are_moves()
    ensures { (node : NodeId) (input : End) (switch : switches.Switch) (a : controllers.Acted) → CanTick input a
        → Leads node input (part_at input switch a) (part_at input switch (ticks a)) }
{}

/// What the controller does at a success, once its switch is met: it releases joins, does what the
/// answer causes, clears ports and takes changes of routes. While it meets its switch, the last Delete
/// All ends the meeting, and the default channels are asked.
pub fn successes_are_moves()
    ensures done { (node : NodeId) (input : End) (switch : switches.Switch) (a : controllers.Acted) (request : Request) → CanFinish input a request
        → Leads node input (part_at input switch a) (part_at input switch (takes_success a request)) }
    ensures changes { (node : NodeId) (input : End) (switch : switches.Switch) (a : controllers.Acted)
        → (a.controller.has_met ≡ true → CanTakeEach input a a.controller.waiting)
        → Leads node input (part_at input switch a) (part_at input switch (takes_changes a)) }
    ensures comes { (node : NodeId) (input : End) (switch : switches.Switch) (a : controllers.Acted) (message : Message) (asked : Asked) (head : Head) (s : Standing)
        (line : Line) (under : ℕ) → asked_in message ≡ Some asked → in_desk message head a.controller.desk ≡ Some s → answered a.controller.desk message ≡ Done s
        → (IsAllPorts s.request → ⊥) → is_estab a.controller.adjacency.state ≡ true → a.controller.has_met ≡ true
        → CanFinish input (with_desk a (without_request a.controller.desk s)) s.request → Stands node input (part_at input switch a) (record line { at_controller = [] })
        → Reaches node input (part_at input switch (answer_comes a message)) AnyLine
        (record line { at_controller = Answer under head.number (word_of input asked.request) Success ∷ [] }) }
    ensures ends { (node : NodeId) (input : End) (switch : switches.Switch) (a : controllers.Acted)
        → CanEach asks (MayAsk input)
        (record a { controller = record a.controller { has_met = true } }) (flat_map default_branches (up_ports a.controller))
        → Leads node input (part_at input switch (record a { controller = record a.controller { has_met = true } })) (part_at input switch (ends_meeting a)) }
{}
