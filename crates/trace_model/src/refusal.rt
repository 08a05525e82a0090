//! Why a line of a trace is refused.

/// A parse error of a trace: why a line is refused, in the order of the tests, which are this
/// project's own.
#[derive(Clone, Copy, Debug, PartialEq, Eq)]
pub enum TraceRefusal {
    /// The line holds the octet of the input numbered 16,777,217.
    ScriptTooLong,
    /// The line has more than 4,096 octets, its end not counted.
    LineTooLong,
    /// An octet of the line is neither 20 to 7E hexadecimal nor a tab.
    BadByte,
    /// The first word isn't that of a line.
    UnknownWord,
    /// The line has another number of words than its first word wants.
    Arity,
    /// A word isn't 1 to 16 lower-case letters and digits, a letter first.
    BadName,
    /// A word isn't a name, a colon and a port 1 to 8.
    BadPlace,
    /// A port isn't 1 to 8.
    BadNumber,
    /// A channel is neither 0/15 nor that of a label (VPI 0 to 15, VCI 32 to 1023), or 0/15 is bound.
    BadChannel,
    /// A mark isn't two decimal numbers with a dot between them, below 2 to the power of 32 and of 64.
    BadMark,
    /// A word isn't an even number of hexadecimal digits.
    BadHex,
    /// A frame has more than 1,528 octets.
    BadLength,
    /// A flow isn't 16 or 12 octets that identify one.
    BadFlow,
    /// A link stands behind another line, or a line behind `end`.
    Late,
    /// A port is linked already.
    PortTaken,
    /// A link joins a port with itself.
    SelfLink,
    /// A port isn't linked.
    NoLink,
}
