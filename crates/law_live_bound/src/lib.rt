//! The two ends of a link bind on in a network (RFC 1953, RFC 1987): a frame that holds a packet comes to one of them and is
//! counted, a message of the other is heard, the switch's success of a label's branch or of a grant's comes, or something else is
//! carried; each time their labels are agreed on but for those that are new.
//!
//! What `law_live_bindings` says of two ports alone is said of one controller in `specs/Law` (`proofs/Ports`, `proofs/Frames`,
//! `proofs/Successes`), with when such a success leaves the node up (`proofs/Standing`); and of a carry in a network in
//! `specs/Worlds` (`proofs/Worlds`). There is no code that runs.
#![tactic(auto)]

ghost use Rattle.law_live_bound.specs.Law.{PacketsKeepBinding, MessagesKeepBinding, LabelBranchesKeepBinding, GrantBranchesKeepBinding, LabelBranchesKeepNodesUp, GrantBranchesKeepNodesUp};
ghost use Rattle.law_live_bound.specs.Worlds.{BindingGoesBothWays, AgreeingWorldsBind, BoundWorldsAgree, LikeWorldsBind, CarriesElsewhereKeepBinding, CountingsKeepBinding, HearingsKeepBinding, OffersAreMade, GrantsAreStarted, HeardFramesKeepNodesUp, OffersKeepNodesUp, StartsKeepNodesUp};

/// A controller's port binds on with the other end of its link. It does nothing, and its contract is the statements.
pub fn ports_bind_on()
    ensures packets { PacketsKeepBinding }
    ensures messages { MessagesKeepBinding }
    ensures labels { LabelBranchesKeepBinding }
    ensures grants { GrantBranchesKeepBinding }
    ensures labels_up { LabelBranchesKeepNodesUp }
    ensures grants_up { GrantBranchesKeepNodesUp }
{}

/// Two ends of a link bind on in a network behind each carry. It does nothing, and its contract is the statements.
pub fn worlds_bind_on()
    ensures both { BindingGoesBothWays }
    ensures agreed { AgreeingWorldsBind }
    ensures rest { BoundWorldsAgree }
    ensures alike { LikeWorldsBind }
    ensures elsewhere { CarriesElsewhereKeepBinding }
    ensures countings { CountingsKeepBinding }
    ensures hearings { HearingsKeepBinding }
    ensures offers { OffersAreMade }
    ensures grants { GrantsAreStarted }
    ensures heard_up { HeardFramesKeepNodesUp }
    ensures offers_up { OffersKeepNodesUp }
    ensures starts_up { StartsKeepNodesUp }
{}
