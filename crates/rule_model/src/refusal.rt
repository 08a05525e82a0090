//! Why rules are refused.

/// A parse error of an access list: why a line of rules is refused, in the order of the tests. This
/// project's own.
#[derive(Clone, Copy, Debug, PartialEq, Eq)]
pub enum RuleRefusal {
    /// The line has more than 4,096 octets.
    LineTooLong,
    /// An octet of the line is neither 20 to 7E hexadecimal nor a tab; the line has no end, so LF and
    /// CR are such octets too.
    BadByte,
    /// The first word is neither `deny` nor `offer`, the protocol is none, or `after` or `keep` isn't
    /// where it stands.
    UnknownWord,
    /// `deny` hasn't 6 words, or `offer` hasn't 10.
    Arity,
    /// A word isn't an IPv4 prefix without host bits.
    BadPrefix,
    /// A word is neither `any` nor a range of ports `LO-HI`, 0 to 65,535, that isn't empty; or it is a
    /// range and the protocol is `two`.
    BadPorts,
    /// A word isn't a decimal number 1 to 65,535.
    BadNumber,
    /// There are 256 rules already.
    TooManyRules,
}
