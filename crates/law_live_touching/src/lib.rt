//! The two ends of a link stay in touch in a network (RFC 1953, RFC 1987), while labels are bound between them and come back: a
//! packet is counted, a message is heard, whatever it is, the switch says that the branch of a label or of a grant is made, or
//! that of a label that was quit deleted, or something else is carried.
//!
//! What `law_live_touch` says of two ports alone is said of one controller in `specs/Law` (`proofs/Staying`, what leaves a port as
//! it is; `proofs/Ports`, `proofs/Frames`, `proofs/Successes`, `proofs/Branches`), and of a carry in a network in `specs/Worlds`
//! (`proofs/Worlds`). There is no code that runs.
#![tactic(auto)]

ghost use Rattle.law_live_touching.specs.Law.{PacketsKeepTouch, MessagesKeepTouch, LabelBranchesKeepTouch, GrantBranchesKeepTouch, LabelTreesKeepTouch};
ghost use Rattle.law_live_touching.specs.Worlds.{TouchGoesBothWays, AgreeingWorldsTouch, TouchingWorldsAgree, LikeWorldsTouch, CarriesElsewhereKeepTouch, CountingsKeepTouch, HearingsKeepTouch, OffersKeepWorldsTouching, StartsKeepWorldsTouching, FreesKeepWorldsTouching};

/// A controller's port stays in touch with the other end of its link. It does nothing, and its contract is the statements.
pub fn ports_stay_in_touch()
    ensures packets { PacketsKeepTouch }
    ensures messages { MessagesKeepTouch }
    ensures labels { LabelBranchesKeepTouch }
    ensures grants { GrantBranchesKeepTouch }
    ensures trees { LabelTreesKeepTouch }
{}

/// Two ends of a link stay in touch in a network behind each carry. It does nothing, and its contract is the statements.
pub fn worlds_stay_in_touch()
    ensures both { TouchGoesBothWays }
    ensures agreed { AgreeingWorldsTouch }
    ensures rest { TouchingWorldsAgree }
    ensures alike { LikeWorldsTouch }
    ensures elsewhere { CarriesElsewhereKeepTouch }
    ensures countings { CountingsKeepTouch }
    ensures hearings { HearingsKeepTouch }
    ensures offers { OffersKeepWorldsTouching }
    ensures starts { StartsKeepWorldsTouching }
    ensures frees { FreesKeepWorldsTouching }
{}
