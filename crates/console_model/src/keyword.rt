//! The first words of lines.

/// A keyword of a console's input: the first word of a line that isn't blank. This project's own.
#[derive(Clone, Copy, Debug, PartialEq, Eq)]
pub enum Keyword {
    /// `ports`
    Ports,
    /// `add`
    Add,
    /// `move`
    Move,
    /// `delete`
    Delete,
    /// `clear`
    Clear,
    /// `verify`
    Verify,
    /// `carry`
    Carry,
    /// `lose`
    Lose,
    /// `tick`
    Tick,
    /// `restart`
    Restart,
    /// `run`
    Run,
}

/// The first words of the lines that are read, each with its keyword.
pub const FIRST_WORDS: [(&str, Keyword); 11] = [
    ("ports", Keyword::Ports),
    ("add", Keyword::Add),
    ("move", Keyword::Move),
    ("delete", Keyword::Delete),
    ("clear", Keyword::Clear),
    ("verify", Keyword::Verify),
    ("carry", Keyword::Carry),
    ("lose", Keyword::Lose),
    ("tick", Keyword::Tick),
    ("restart", Keyword::Restart),
    ("run", Keyword::Run),
];
