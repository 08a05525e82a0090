//! The simulation relation of a port and the machine of one label on its link: what a port of a controller shows of
//! that machine, and how what the port does is moves of it.
//!
//! `specs/Link` names the label and the two ends of its link, `specs/Flows` gives each flow a number,
//! `specs/Heard` says what a message of IFMP is to the machine, `specs/Shown` what a port at work shows
//! of it, and `specs/Reaching` that moves of the machine lead from one port at work to the next. The
//! lemmas stand once for both ends of the link where both do the same. There is no code that runs.
#![tactic(auto)]

ghost use Rattle.std.specs.Prelude.{◌≡◌, ◌≤◌, [], List, Some, None, true, false, nat_eq, ℕ};
ghost use Rattle.law_port_facts.specs.port_model.Words.{Addr, Instance, End, is_label_number, Clearing, FlowId, same_flow, Request, Desk, at, Setup, Session, Work, resets, restarts, Unnumbered, is_spent, last_number, own_instance, Grant, ByController, grant_label, hears, used, parted, lent};
ghost use Rattle.law_port_facts.specs.port_model.ifmp_wire.declared.message.Message.{Message};
ghost use Rattle.law_label_line.specs.Cells as lines;
ghost use Rattle.law_label_line.specs.Cells.{Role, Cell, Downstream, Upstream, frame};
ghost use Rattle.law_label_line.specs.Line.{Line};
ghost use Rattle.law_label_line.specs.Downstream.{sends_numbered};
ghost use Rattle.law_port_facts.specs.port_model.Saying.{peer_instance, says};
ghost use Rattle.law_port_facts.specs.port_model.Answers.{done};
ghost use Rattle.law_port_facts.specs.port_model.Ticks.{ticks};
ghost use Rattle.law_port_facts.specs.port_model.Joins.{joined};
ghost use Rattle.law_port_views.specs.Link.{LinkLabel, other};
ghost use Rattle.law_port_views.specs.Flows.{flow_number};
ghost use Rattle.law_port_views.specs.Heard.{heard_by, is_own, IsSaid};
ghost use Rattle.law_port_views.specs.Shown.{Shown};
ghost use Rattle.law_port_views.specs.Reaching.{Reaches, ReachesFrom, Leads, Comes, clears_work};

/// The machine tells flows apart as they are. It does nothing, and its contract is the statement.
pub fn flows_are_told()
    ensures { (a b : FlowId) → nat_eq (flow_number a) (flow_number b) ≡ same_flow a b }
{}

/// A port that shows a state of the machine is reset, restarts with its node, or is cleared: one move or two of the machine,
/// at either end of the link. It does nothing, and its contract is the statement.
pub fn resets_lead_lines<Like>()
    ensures reset { (role : Role) (link : LinkLabel) (queued : List Cell) (setup : Setup) (w : Work) (line : Line)
        → setup.address ≡ link.address role → Shown role link Like queued w line → Reaches role link Like queued (resets setup w) line }
    ensures restart { (role : Role) (link : LinkLabel) (queued : List Cell) (setup : Setup) (w : Work) (line : Line)
        → setup.address ≡ link.address role → Shown role link Like queued w line → Reaches role link Like queued (restarts setup w) line }
    ensures clearing { (role : Role) (link : LinkLabel) (queued : List Cell) (w : Work) (line : Line)
        → (Like → ⊥) → w.port.grants ≡ [] → w.port.adjacency.state ≡ Clearing → Shown role link Like queued w line
        → Reaches role link Like queued (clears_work w) line }
{}

/// A redirection message that a port says under its next number is said in the machine, or is lost at once
/// where the numbers are spent: one that bears on the label, and any other, of the end that hands the
/// label out; an acknowledgement of the other end, and what isn't of the label there. It does nothing, and
/// its contract is the statement.
pub fn messages_lead_lines<Like>()
    ensures numbered { (link : LinkLabel) (queued : List Cell) (w : Work) (s : Session) (message : Unnumbered) (said : lines.Message) (line : Line)
        → w.halted ≡ false → w.port.session ≡ Some s → s.number ≤ last_number
        → heard_by Downstream link.label (message (own_instance w.port.adjacency) (peer_instance w.port.adjacency) s.number) ≡ Some said
        → IsSaid (link.address Upstream) message → Shown Downstream link Like queued w line
        → ReachesFrom Downstream link Like queued (says w message) (sends_numbered line said) line }
    ensures others { (link : LinkLabel) (queued : List Cell) (w : Work) (s : Session) (message : Unnumbered) (line : Line)
        → w.halted ≡ false → w.port.session ≡ Some s → s.number ≤ last_number
        → ((own peer : Instance) (n : ℕ) → heard_by Downstream link.label (message own peer n) ≡ Some (lines.Other own.0 peer.0 n))
        → IsSaid (link.address Upstream) message → Shown Downstream link Like queued w line → Reaches Downstream link Like queued (says w message) line }
    ensures unheard { (link : LinkLabel) (queued : List Cell) (w : Work) (message : Unnumbered) (line : Line)
        → ((own peer : Instance) (n : ℕ) → heard_by Upstream link.label (message own peer n) ≡ None)
        → IsSaid (link.address Downstream) message → Shown Upstream link Like queued w line → Shown Upstream link Like queued (says w message) line }
{}

/// A message of IFMP that the other end said comes to a port whose numbers aren't spent, at either end of
/// the link. The machine hears it, where it bears on the label, and all that the port makes of it is moves
/// behind that: it follows the table and replies, learns, makes or ends the grant, takes the
/// acknowledgement, recalls and quits labels. Or it is lost in the machine, where nothing of the label changes
/// by it. It does nothing, and its contract is the statement.
pub fn hearing_leads_lines<Like>()
    ensures { (role : Role) (link : LinkLabel) (queued : List Cell) (setup : Setup) (desk : Desk) (w : Work) (source : Addr) (message : Message) (line : Line)
        → w.halted ≡ false → is_spent w.port.session ≡ false → is_label_number link.label ≡ true
        → source ≡ link.address (other role) → is_own (link.address role) message ≡ true → Shown role link Like queued w line
        → Comes role link Like queued (hears setup desk w source message) message line }
{}

/// What the switch's successes mean to a port whose numbers aren't spent, or that has asked to be reset, leads
/// the machine, at either end of the link: a label is bound and REDIRECT said, a label is free, a grant can be
/// used. So does the rest that its controller tells it: a label is used, is joined, isn't joined any more, and
/// a grant that is the controller's is lent to an input. It does nothing, and its contract is the statement.
pub fn answers_lead_lines<Like>()
    ensures done { (role : Role) (link : LinkLabel) (queued : List Cell) (setup : Setup) (w : Work) (request : Request)
        → (w.halted ≡ false → is_spent w.port.session ≡ false) → is_label_number link.label ≡ true → Leads role link Like queued w (done setup w request) }
    ensures used { (role : Role) (link : LinkLabel) (queued : List Cell) (w : Work) (number : ℕ) → Leads role link Like queued w (used w number) }
    ensures joined { (role : Role) (link : LinkLabel) (queued : List Cell) (w : Work) (number : ℕ) (output : End)
        → Leads role link Like queued w (joined w number output) }
    ensures parted { (role : Role) (link : LinkLabel) (queued : List Cell) (w : Work) (number : ℕ) → Leads role link Like queued w (parted w number) }
    ensures lent { (role : Role) (link : LinkLabel) (queued : List Cell) (w : Work) (grant : Grant) (input : End)
        → at grant_label grant.label w.port.grants ≡ Some grant → grant.state ≡ ByController
        → Leads role link Like queued w (lent w grant input) }
{}

/// A tick of a port whose numbers aren't spent, or that has asked to be reset, leads the machine, at either end of
/// the link: the adjacency's tick, lifetimes of grants, labels that are refreshed, recalled, reclaimed again or
/// unwired, LABEL RANGE, and the windows. It does nothing, and its contract is the statement.
pub fn ticks_lead_lines<Like>()
    ensures { (role : Role) (link : LinkLabel) (queued : List Cell) (setup : Setup) (desk : Desk) (w : Work)
        → (w.halted ≡ false → is_spent w.port.session ≡ false) → is_label_number link.label ≡ true → Leads role link Like queued w (ticks setup desk w) }
{}
