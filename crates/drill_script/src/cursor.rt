//! Places in the script of a drill.

ghost use Rattle.std.specs.Prelude.{◌≤◌};

/// The kind of the next line of a generated script (a drill).
#[derive(Clone, Copy, Debug, PartialEq, Eq)]
pub enum Stage {
    /// `node`, of the node with this number.
    Node(u8),
    /// `link`, of this node and the next one.
    Link(u8),
    /// `route`, of a node.
    Route {
        /// The node's number.
        node: u8,
        /// The number of the node that it leads to.
        towards: u8,
    },
    /// A tick before the first packet, and how many more come before it.
    OpeningTick(u8),
    /// The rounds behind such a tick, and how many more ticks come before the first packet.
    OpeningRun(u8),
    /// The packet with this number.
    Send(u16),
    /// A loss behind this packet.
    Lose(u16),
    /// The rounds behind this packet.
    Run(u16),
    /// A tick behind this packet.
    Tick(u16),
    /// The rounds behind that tick.
    LongRun(u16),
    /// The restart of a controller behind this packet.
    Restart(u16),
    /// The restart of a switch behind this packet.
    RestartSwitch(u16),
    /// The last tick.
    ClosingTick,
    /// The last rounds.
    ClosingRun,
}

/// A cursor in a generated script (a drill): the line that is next, and the number drawn for a
/// packet.
#[derive(Clone, Copy, Debug, PartialEq, Eq)]
pub struct Cursor {
    /// How many nodes the drill has.
    pub nodes: u8,
    /// The number drawn for the last packet up to this line; before the first packet, for that one.
    pub drawn: u32,
    /// The line that is next.
    pub stage: Stage,
    ghost enough: { 4 ≤ nodes },
}
