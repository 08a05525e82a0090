//! Order at a cut-through: where an input of a link is joined to a label, or a request on its way joins it, no cell
//! that the controller sent to that label waits for the switch, or waits behind that request.
//!
//! `proofs/Sending` has what a controller sends, `proofs/Grants` that it sends nothing to a label that is joined, since its
//! grant is lent; `proofs/Sites` and `proofs/Events` what each event leaves at each site, `proofs/Kept`, `proofs/Whole` and `proofs/Opening`
//! that of runs, and `proofs/Causes` that broken frames stand beside their causes. There is no code that runs.
#![tactic(auto)]

ghost use Rattle.law_fed_worlds.specs.law_world_views.Between.{HasAllShapes, HasAllPassed};
ghost use Rattle.law_fed_worlds.specs.law_world_views.Kept.{Keeps, Begins};
ghost use Rattle.law_pairs.specs.Past.{RunsMakeNoPairs};
ghost use Rattle.law_passed_cells.specs.Passed.{HasRequests, PassedIsKept, BreaksHaveCauses};

use law_fed_worlds::worlds_are_fed;

/// Each event of a run without chances keeps that cells have passed, where no event makes a pair of labels but by the joins
/// that a tick enters; so it is at the opening. And in a run in each of whose networks all is so, broken frames stand beside
/// a cause. It does nothing but call the law that it stands on, and its contract is the statement.
pub fn cells_have_passed()
    ensures events { Keeps HasAllShapes → RunsMakeNoPairs → PassedIsKept }
    ensures opening { Begins HasAllPassed }
    ensures requests { Begins HasRequests }
    ensures causes { BreaksHaveCauses }
{
    worlds_are_fed();
}
