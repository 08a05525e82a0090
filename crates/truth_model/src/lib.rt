//! All that is true of every run of a network, as one record, and what makes a line of a report true: the
//! losses of each event, `IsTrueRun`, and the lines. Definitions alone, in `specs/`.
#![tactic(auto)]
