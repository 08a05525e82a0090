//! A network in which all have met and no label is held, calm beats, and what both ends of each link hold behind them: what is so of every
//! run, `IsCalmRun`. Definitions alone, in `specs/`.
#![tactic(auto)]
