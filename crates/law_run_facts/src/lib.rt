//! Invariants of every run of a network, forged frames or not: of each node and its controller, of the marks and
//! instances that were given out, and of what an event adds to what came before.
//!
//! `specs/Nodes` has what is so of each node, `specs/Drawn` that no instance is drawn twice, `specs/Chains`
//! what stands in the chains of GSMP's channel, and `specs/Steps` what an event adds to a past and what of
//! a past stays so. The proof goes over all rules of a controller once (`proofs/Walks`, `Coming`) and over a
//! switch (`Switches`), then over events (`Worlds`, `Telling`). There is no code that runs.
#![tactic(auto)]

ghost use Rattle.law_world_views.specs.Between.{HasAllNumbers};
ghost use Rattle.law_world_views.specs.Kept.{Keeps, Begins};
ghost use Rattle.law_run_facts.specs.Nodes.{RunsHaveNodes, RunsKeepNodes, RunsHaveRoom};
ghost use Rattle.law_run_facts.specs.Drawn.{EventsDraw, RunsDrawOnce};
ghost use Rattle.law_run_facts.specs.Chains.{RunsHaveOwnChains};
ghost use Rattle.law_run_facts.specs.Steps.{PastsAreWhole, EventsAreSteps, PastsStay, RunsHaveFronts, FramesStay};

/// What is so of each node in every run: what holds of its controller whatever comes, by the records of
/// the run; that numbers are left; that marks and instances are at most those given out, and no instance
/// is drawn twice; that GSMP's chains have taken cells of its channel; and what each event adds to the
/// past, and leaves of it. It does nothing, and its contract is the statement.
pub fn nodes_are_steady()
    ensures sites { RunsHaveNodes }
    ensures there { RunsKeepNodes }
    ensures room { RunsHaveRoom }
    ensures numbers { Keeps HasAllNumbers }
    ensures numbers_begin { Begins HasAllNumbers }
    ensures draws { EventsDraw }
    ensures drawn { RunsDrawOnce }
    ensures gathered { RunsHaveOwnChains }
    ensures pasts { PastsAreWhole }
    ensures steps { EventsAreSteps }
    ensures stay { PastsStay }
    ensures fronts { RunsHaveFronts }
    ensures frames { FramesStay }
{}
