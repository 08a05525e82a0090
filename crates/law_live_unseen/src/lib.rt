//! What a port changes of its labels and grants without the other end of its link seeing it (RFC 1953; joins are this
//! project's own): a grant is started, or lent to the input of a label, which is joined or parted, and a packet uses a label.
//! What the ends agree on (`law_live_links`) isn't touched by that.
//!
//! `specs/Law` has the statements. What the other end sees of a label and of a grant is part of each (`proofs/Alike`), and
//! these rules leave it (`proofs/Rules`). There is no code that runs.
#![tactic(auto)]

ghost use Rattle.law_live_unseen.specs.Law.{LikePortsAgree, GrantsAreLentUnseen, LabelsAreJoinedUnseen, LabelsArePartedUnseen, GrantsAreStartedUnseen, LabelsAreUsedUnseen};

/// What the other end of a link doesn't see leaves what the ends agree on. It does nothing, and its contract is the statements.
pub fn unseen_changes_keep_agreement()
    ensures alike { LikePortsAgree }
    ensures lent { GrantsAreLentUnseen }
    ensures joined { LabelsAreJoinedUnseen }
    ensures parted { LabelsArePartedUnseen }
    ensures started { GrantsAreStartedUnseen }
    ensures used { LabelsAreUsedUnseen }
{}
