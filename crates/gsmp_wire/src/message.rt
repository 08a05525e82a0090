//! The messages.

ghost use Rattle.std.specs.Prelude.{◌≡◌};
ghost use Rattle.gsmp_wire.specs.Layout.{connection_of};
ghost use Rattle.gsmp_wire.specs.Outcomes.{code_in, result_in};
ghost use Rattle.gsmp_wire.specs.Parts.{branch_on, head_of, move_on};

use crate::outcome::Outcome;
use crate::rows::PortRows;
use net_types::{Channel, Greeting};

/// The LLC/SNAP header in front of a message: LLC AA AA 03, OUI 0, protocol 88 0C.
pub(crate) const SNAP_HEADER: [u8; 8] = [0xAA, 0xAA, 0x03, 0x00, 0x00, 0x00, 0x88, 0x0C];

/// The greatest message with this header, in octets: an All Ports answer with a record of 16 octets for
/// each of nine ports.
pub const MAX_MESSAGE: usize = 164;

/// A connection management message type (RFC 1987, Connection Management Messages): which of the
/// four messages about one branch, or all branches, of an input.
#[derive(Clone, Copy, Debug, PartialEq, Eq)]
pub enum BranchKind {
    /// Adds a branch from an input channel to an output channel.
    Add,
    /// Deletes all branches of an input channel.
    Delete,
    /// Asks whether an input channel has a branch.
    Verify,
    /// Deletes all branches of an input port.
    DeleteAll,
}

/// The Function of a Port Management that brings its port up.
pub const BRING_UP: u8 = 1;

/// The Function of a Port Management that takes its port down.
pub const TAKE_DOWN: u8 = 2;

/// The types of messages, which the second octet tells.
#[derive(Clone, Copy, Debug, PartialEq, Eq)]
pub(crate) enum MessageType {
    /// Type 10.
    Adjacency,
    /// Types 16, 18, 19 and 20.
    Branch(BranchKind),
    /// Type 22.
    Move,
    /// Type 32.
    Port,
    /// Type 66.
    AllPorts,
}

/// The Result, Code and Transaction Identifier that each message but those of the adjacency begins with
/// (RFC 1987, Message Format).
#[derive(Clone, Copy, Debug, PartialEq, Eq)]
pub struct Head {
    /// The Result: [`REQUEST`](crate::REQUEST), [`SUCCESS`](crate::SUCCESS) or [`FAILURE`](crate::FAILURE).
    pub result: u8,
    /// The Code: the cause of a failure, and 0 in the others.
    pub code: u8,
    /// The transaction number, which pairs an answer with its request.
    pub number: u32,
}

/// A virtual channel connection as GSMP names it: the fields that all Connection Management messages
/// have (RFC 1987, Connection Management Messages).
#[derive(Clone, Copy, Debug, PartialEq, Eq)]
pub struct Connection {
    /// Pairs an answer with its request.
    pub transaction: u32,
    /// The session of the input port.
    pub session: u32,
    /// The input port.
    pub input_port: u32,
    /// The input channel.
    pub input: Channel,
    /// The output port.
    pub output_port: u32,
    /// The output channel.
    pub output: Channel,
    /// The number of branches.
    pub branches: u16,
    /// The priority.
    pub priority: u8,
}

/// A GSMP message (RFC 1987). `result` is [`REQUEST`](crate::REQUEST) in a request,
/// [`SUCCESS`](crate::SUCCESS) in a success answer and [`FAILURE`](crate::FAILURE) in a failure answer;
/// `code` is the cause of a failure, and 0 in the others.
#[derive(Debug, Drop)]
pub enum Message {
    /// An adjacency message.
    Adjacency(Greeting),
    /// Add Branch, Delete Tree, Verify Tree or Delete All, or the answer to one.
    Branch {
        /// Which of the four.
        kind: BranchKind,
        /// Request, success or failure.
        result: u8,
        /// The cause of a failure.
        code: u8,
        /// Pairs an answer with its request.
        transaction: u32,
        /// The session of the input port.
        session: u32,
        /// The input port.
        input_port: u32,
        /// The input channel.
        input: Channel,
        /// The output port.
        output_port: u32,
        /// The output channel.
        output: Channel,
        /// In a success answer the number of branches that the input has afterwards, 0 or 1.
        branches: u16,
        /// The priority of the connection.
        priority: u8,
    },
    /// Move Branch, or the answer to one.
    Move {
        /// Request, success or failure.
        result: u8,
        /// The cause of a failure.
        code: u8,
        /// Pairs an answer with its request.
        transaction: u32,
        /// The session of the input port.
        session: u32,
        /// The input port.
        input_port: u32,
        /// The input channel.
        input: Channel,
        /// The port that the branch leads to.
        output_port: u32,
        /// The channel that the branch leads to.
        output: Channel,
        /// The port that it is to lead to.
        target_port: u32,
        /// The channel that it is to lead to.
        target: Channel,
        /// In a success answer the number of branches that the input has afterwards, 0 or 1.
        branches: u16,
        /// The priority of the connection.
        priority: u8,
    },
    /// Port Management, or the answer to one.
    Port {
        /// Request, success or failure.
        result: u8,
        /// The cause of a failure.
        code: u8,
        /// Pairs an answer with its request.
        transaction: u32,
        /// The port.
        port: u32,
        /// Its session, in a success answer the new one.
        session: u32,
        /// [`BRING_UP`] or [`TAKE_DOWN`].
        function: u8,
    },
    /// All Ports Configuration, or the answer to one.
    AllPorts {
        /// Request, success or failure.
        result: u8,
        /// The cause of a failure.
        code: u8,
        /// Pairs an answer with its request.
        transaction: u32,
        /// The ports, in a success answer.
        rows: PortRows,
    },
}

impl Message {
    /// Its Result, Code and transaction number; none exactly of an adjacency message.
    pub fn head(&self) -> Option<Head>
        ensures { result ≡ head_of self.now }
    {
        match self {
            Message::Adjacency(_) => None,
            Message::Branch {
                result,
                code,
                transaction,
                ..
            }
            | Message::Move {
                result,
                code,
                transaction,
                ..
            }
            | Message::Port {
                result,
                code,
                transaction,
                ..
            }
            | Message::AllPorts {
                result,
                code,
                transaction,
                ..
            } => Some(Head {
                result: *result,
                code: *code,
                number: *transaction,
            }),
        }
    }

    /// The connection that it is about; none where it is about the adjacency, a port or all ports.
    pub fn connection(&self) -> Option<Connection>
        ensures { result ≡ connection_of self.now }
    {
        match self {
            Message::Branch {
                transaction,
                session,
                input_port,
                input,
                output_port,
                output,
                branches,
                priority,
                ..
            }
            | Message::Move {
                transaction,
                session,
                input_port,
                input,
                output_port,
                output,
                branches,
                priority,
                ..
            } => Some(Connection {
                transaction: *transaction,
                session: *session,
                input_port: *input_port,
                input: *input,
                output_port: *output_port,
                output: *output,
                branches: *branches,
                priority: *priority,
            }),
            _ => None,
        }
    }
}

impl Connection {
    /// The message about a branch, or all branches, of its input, with a Result and a Code as they are
    /// read.
    pub(crate) fn read_branch(&self, kind: BranchKind, outcome: u8, code: u8) -> Message
        ensures { result ≡ branch_on self.now kind outcome code }
    {
        Message::Branch {
            kind,
            result: outcome,
            code,
            transaction: self.transaction,
            session: self.session,
            input_port: self.input_port,
            input: self.input,
            output_port: self.output_port,
            output: self.output,
            branches: self.branches,
            priority: self.priority,
        }
    }

    /// The Move Branch that leads its branch to another end, or the answer to it, with a Result and a Code
    /// as they are read.
    pub(crate) fn read_move(
        &self,
        outcome: u8,
        code: u8,
        target_port: u32,
        target: Channel,
    ) -> Message
        ensures { result ≡ move_on self.now outcome code target_port target }
    {
        Message::Move {
            result: outcome,
            code,
            transaction: self.transaction,
            session: self.session,
            input_port: self.input_port,
            input: self.input,
            output_port: self.output_port,
            output: self.output,
            target_port,
            target,
            branches: self.branches,
            priority: self.priority,
        }
    }

    /// The request about a branch, or all branches, of its input, or the answer to one.
    pub fn branch(&self, kind: BranchKind, outcome: Outcome) -> Message
        ensures { result ≡ branch_on self.now kind (result_in outcome) (code_in outcome) }
    {
        self.read_branch(kind, outcome.result(), outcome.code())
    }

    /// The request to lead its branch to another end (Move Branch), or the answer to one.
    pub fn moved(&self, outcome: Outcome, target_port: u32, target: Channel) -> Message
        ensures { result ≡ move_on self.now (result_in outcome) (code_in outcome) target_port target }
    {
        self.read_move(outcome.result(), outcome.code(), target_port, target)
    }
}
