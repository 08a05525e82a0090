//! Why lines and documents are refused.

use rule_model::RuleRefusal;

/// A parse error of a script: why a line is refused, in the order of the tests, which are this
/// project's own.
#[derive(Clone, Copy, Debug, PartialEq, Eq)]
pub enum LineRefusal {
    /// The line holds the octet of the input numbered 16,777,217.
    ScriptTooLong,
    /// The line has more than 4,096 octets, its end not counted.
    LineTooLong,
    /// An octet of the line is neither 20 to 7E hexadecimal nor a tab.
    BadByte,
    /// The first word isn't a line's, or a fixed word isn't the one that stands there.
    UnknownWord,
    /// The line has another number of words than its first word wants.
    Arity,
    /// A word isn't 1 to 16 lower-case letters and digits, a letter first.
    BadName,
    /// A word isn't a decimal number in its range, or a range of labels ends before it begins.
    BadNumber,
    /// A word isn't an IPv4 address.
    BadAddress,
    /// A word isn't an IPv4 prefix without host bits.
    BadPrefix,
    /// A word isn't a name, a colon and a port or queue.
    BadPlace,
    /// A word isn't VPI/VCI in its range.
    BadChannel,
    /// A word isn't an even number of hexadecimal digits.
    BadHex,
    /// A frame has more than 1,528 octets.
    BadLength,
    /// A line of the topology stands behind an event, or the version behind another line.
    Late,
    /// A node has the name already.
    DuplicateName,
    /// No node has the name.
    UnknownName,
    /// A link joins a node with itself.
    SelfLink,
    /// A port has a link already.
    PortTaken,
    /// A port has no link.
    NoLink,
    /// The node has a route of the prefix already.
    Duplicate,
    /// The node has 256 routes, and none of the prefix.
    TableFull,
    /// The node has no route of the prefix.
    NoPrefix,
    /// The line would pass a limit of a script.
    TooMany,
}

/// A parse error of a TOML document: why it is refused as a whole. This project's own.
#[derive(Clone, Copy, Debug, PartialEq, Eq)]
pub enum DocumentRefusal {
    /// It has more than 16,777,216 octets.
    ScriptTooLong,
    /// It is no TOML document, or one of another shape.
    Toml,
}

/// An error with its line number: what ends a script before its end. This project's own.
#[derive(Clone, Copy, Debug, PartialEq, Eq)]
pub enum Refused {
    /// A line.
    Line {
        /// Its number, from 1, blank lines counted; of a document, behind those of its rules.
        number: u32,
        /// Why.
        name: LineRefusal,
    },
    /// A line of a document's rules.
    Rule {
        /// Its number, from 1, blank lines counted.
        number: usize,
        /// Why.
        name: RuleRefusal,
    },
    /// The document.
    Document(DocumentRefusal),
}
