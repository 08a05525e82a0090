//! Further steps of the simulation of a label's machine, beside the moves that `law_port_views` states: a port counts
//! packets of the default channel, gives grants back, and asks to be reset once its numbers are spent.
//!
//! `specs/Follows` says that a rule is moves of a machine, and leaves the numbers of the port unspent. Each rule
//! stands once, for both ends of the link, and for the label that it names as for any other of the port.
//! There is no code that runs.
#![tactic(auto)]

ghost use Rattle.std.specs.Prelude.{◌≡◌, List, Some, false, true, ℕ};
ghost use Rattle.law_port_views.specs.port_model.Words.{End, Addr, is_label_number, Request, at, Desk, Setup, Grant, ByController, grant_label, Work, labels_of, counts, used, parted, lent, given_back, halts_if_spent, hears, resets, restarts};
ghost use Rattle.law_port_views.specs.port_model.ifmp_wire.declared.message.Message.{Message};
ghost use Rattle.law_port_views.specs.ordered_lists.Ordered.{InOrder};
ghost use Rattle.law_port_views.specs.port_model.Answers.{done};
ghost use Rattle.law_port_views.specs.port_model.Ticks.{ticks};
ghost use Rattle.law_port_views.specs.port_model.Joins.{joined};
ghost use Rattle.law_port_views.specs.law_port_facts.Port.{IsBefore};
ghost use Rattle.law_port_views.specs.law_label_line.Cells.{Role, Upstream, Cell};
ghost use Rattle.law_port_views.specs.law_label_line.Line.{Line};
ghost use Rattle.law_port_views.specs.Link.{LinkLabel};
ghost use Rattle.law_port_views.specs.Shown.{Shown};
ghost use Rattle.law_port_views.specs.Reaching.{Reaches, Leads};
ghost use Rattle.law_label_steps.specs.Follows.{IsUnspent, Follows};

/// A packet comes on the default channel and is counted, and its flow may be offered a label: moves of the
/// machine of each label, at either end of its link, and the numbers of the port stay unspent. It does nothing,
/// and its contract is the statement.
pub fn counting_leads_lines<Like>()
    ensures { (role : Role) (link : LinkLabel) (queued : List Cell) (setup : Setup) (desk : Desk) (w : Work) (packet : List ℕ)
        → InOrder IsBefore (labels_of w.port) → Follows role link Like queued w (counts setup desk w packet) }
{}

/// Once a grant of the label is lent, more may be joined to the label than before. A grant is given back
/// where no join to its label is in the network, nor a request that makes one, and a port whose numbers are
/// spent by that asks to be reset: moves of the machine of each label, whatever the numbers of the port. Where
/// nothing is said the numbers stay unspent. It does nothing, and its contract is the statement.
pub fn joins_lead_lines<Like, More>()
    ensures lent_on { (link : LinkLabel) (queued : List Cell) (w : Work) (grant : Grant) (input : End) (line : Line)
        → w.halted ≡ false → at grant_label grant.label w.port.grants ≡ Some grant → grant.state ≡ ByController → grant.label ≡ link.label
        → Shown Upstream link Like queued w line → Reaches Upstream link More queued (lent w grant input) line }
    ensures giving { (role : Role) (link : LinkLabel) (queued : List Cell) (w : Work) (grant : Grant)
        → is_label_number link.label ≡ true → at grant_label grant.label w.port.grants ≡ Some grant → (grant.label ≡ link.label → Like → ⊥)
        → Leads role link Like queued w (given_back w grant) }
    ensures closing { (role : Role) (link : LinkLabel) (queued : List Cell) (w : Work) → IsUnspent (halts_if_spent w) × Leads role link Like queued w (halts_if_spent w) }
    ensures unspent { (w : Work) (number : ℕ) (output : End) (grant : Grant) (input : End)
        → IsUnspent w → IsUnspent (joined w number output) × IsUnspent (parted w number) × IsUnspent (lent w grant input) }
{}

/// The numbers of a port that isn't to be reset stay unspent behind each message that it hears, a packet on a
/// label's channel, what the switch has done, and a tick; a port that is reset, or restarts with its node, has
/// none. It does nothing, and its contract is the statement.
pub fn numbers_stay_unspent()
    ensures hearing { (setup : Setup) (desk : Desk) (w : Work) (source : Addr) (message : Message) → IsUnspent w → IsUnspent (hears setup desk w source message) }
    ensures in_use { (w : Work) (number : ℕ) → IsUnspent w → IsUnspent (used w number) }
    ensures answers { (setup : Setup) (w : Work) (request : Request) → IsUnspent w → IsUnspent (done setup w request) }
    ensures tick { (setup : Setup) (desk : Desk) (w : Work) → IsUnspent w → IsUnspent (ticks setup desk w) }
    ensures reset { (setup : Setup) (w : Work) → IsUnspent (resets setup w) }
    ensures restart { (setup : Setup) (w : Work) → IsUnspent (restarts setup w) }
{}
