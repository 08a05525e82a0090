//! What ties a pool to the definitions of a port, as a function that does nothing: each clause is a law
//! of the definitions.

ghost use Rattle.std.specs.Prelude.{◌≡◌, List, filter};
ghost use Rattle.branch_desk.specs.port_model.Setup.{Setup, label_numbers};
ghost use Rattle.branch_desk.specs.port_model.Labels.{Label, is_spare, lowest_spare};
ghost use Rattle.label_pool.specs.Pool.{Pool, labels_between, lowest};

/// A new pool has the labels of its port; and where a pool's spare labels are those of the port that
/// aren't held, what it hands out is the port's lowest spare label.
pub fn pools_are_the_ports()
    ensures opened { (setup : Setup) → labels_between setup.least setup.greatest ≡ label_numbers setup }
    ensures lowest { (setup : Setup) (labels : List Label) (pool : Pool) → pool.spare ≡ filter (is_spare labels) (label_numbers setup) → lowest pool ≡ lowest_spare setup pool.from pool.to labels }
{}
