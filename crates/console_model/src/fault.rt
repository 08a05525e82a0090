//! Why a line is refused.

/// A parse error of a console's input: why a line is refused, in the order of the tests;
/// `BadNumber` and `BadPlace` come from left to right. This project's own.
#[derive(Clone, Copy, Debug, PartialEq, Eq)]
pub enum ConsoleFault {
    /// The line holds the octet of the input numbered 16,777,217.
    ScriptTooLong,
    /// The line has more than 4,096 octets, its end not counted.
    LineTooLong,
    /// An octet of the line is neither 20 to 7E hexadecimal nor a tab.
    BadByte,
    /// The first word isn't a line's.
    UnknownWord,
    /// The line has another number of words than its first word wants.
    Arity,
    /// A word isn't a decimal number in its range.
    BadNumber,
    /// A word is neither `c` nor `s`.
    BadPlace,
    /// The line stands before the line `ports`.
    NoPorts,
    /// The line is a second `ports`.
    Late,
    /// There would be more than 200,000 lines of events, or more than 100,000 rounds.
    TooMany,
}
