//! The first words of lines.

/// A keyword of a script: the first word of a line that isn't blank. This project's own.
#[derive(Clone, Copy, Debug, PartialEq, Eq)]
pub enum Keyword {
    /// `node`
    Node,
    /// `cells`
    Cells,
    /// `labels`
    Labels,
    /// `link`
    Link,
    /// `route`
    Route,
    /// `policy`
    Policy,
    /// `timers`
    Timers,
    /// `version`
    Version,
    /// `send`
    Send,
    /// `carry`
    Carry,
    /// `lose`
    Lose,
    /// `tick`
    Tick,
    /// `tickswitch`
    TickSwitch,
    /// `restart`
    Restart,
    /// `restartswitch`
    RestartSwitch,
    /// `run`
    Run,
    /// `forge`
    Forge,
    /// `setroute`
    SetRoute,
    /// `unroute`
    Unroute,
}
