//! What is wrong with a trace.

/// A violation that a monitor finds (a breach): what a line of a trace does that no line of a good
/// one does, in the order of the tests. This project's own.
#[derive(Clone, Copy, Debug, PartialEq, Eq)]
pub enum Breach {
    /// A cell is carried from, or lost at, a queue that is empty.
    Empty,
    /// A channel is bound while a cell of it stands in the queue towards it.
    Reuse,
    /// A mark gets a second frame, or a cell of a mark without frame comes to a queue on a label's
    /// channel.
    Frame,
    /// A cell comes to a queue on a label's channel that isn't bound.
    NoFlow,
    /// The frame of a cell isn't a labelled frame of the flow that its channel is bound to.
    Flow,
    /// A cell that a switch passes on goes to another flow than the one it came by, one hop further.
    Hop,
}

/// The verdict of a monitor on one line of a trace that isn't refused. This project's own.
#[derive(Clone, Copy, Debug, PartialEq, Eq)]
pub enum Step {
    /// A line of a good trace.
    Good,
    /// None.
    No(Breach),
}
