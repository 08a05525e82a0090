//! Termination of carrying: each carry that finds a cell makes the world of a run lighter, by the measure of
//! `claims_model`, so after as many rounds as a world weighs no queue holds a cell. And then each packet that was
//! accepted has its one fate, or an entry in the ledger.
//!
//! `specs/Law` has the statements. A label that cells are on isn't bound anew, and frames that were made stay, so no cell
//! weighs more by what an event leaves (`proofs/Reweighed`); `Facts` has what the laws of runs tell of the world before a
//! carry. At a switch a cell weighs less where its branch leads it (`Crossing`, `Pays`), to a controller `Coming` brings what
//! `law_controller_weights` asks, and `Carried` puts them together; `law_quiet_rounds` counts. There is no code that runs.
#![tactic(auto)]

ghost use Rattle.law_quiet_links.specs.Law.{CarriesFind, CarriesWeighLess, PacketsEnd, RoundsEmptyQueues, RoundsMakeLighter};

/// Each carry of a queue that holds a cell makes a world lighter, so that no more carries find a cell than it weighs, and as
/// many rounds empty all queues; and then each accepted packet has one fate or an entry in the ledger. It does nothing, and
/// its contract is the statement.
pub fn carries_empty_queues()
    ensures carries { CarriesWeighLess }
    ensures finds { CarriesFind }
    ensures lighter { RoundsMakeLighter }
    ensures rounds { RoundsEmptyQueues }
    ensures packets { PacketsEnd }
{}
