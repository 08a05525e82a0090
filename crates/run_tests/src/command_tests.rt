//! Documents, drills, messages and traces through `run`: what the commands other than `replay` write.

use crate::script_tests::{assert_outcome, assert_run, outcome_over, source_of};
use std::test::Fail;

/// Documents whose rules are judged, what is reported, and the statuses. The second rule of the first matches
/// what the first one matches; a rule of flows of type 2 has no ports.
const RULES: [(&str, &str, u8); 3] = [
    (
        "rules = [\"offer any 0.0.0.0/0 0.0.0.0/0 any any after 4 keep 40\", \"deny udp 10.0.1.0/24 10.0.0.0/8 any any\"]\n",
        "rule 1\nrule 2 covered 1\nend rules 2 covered 1\n",
        0,
    ),
    (
        "rules = [\"deny two 10.0.0.0/8 10.0.0.0/8 any any\", \"deny two 10.0.0.0/8 10.0.0.0/8 1-2 any\"]\n",
        "rule 1\nrefused 2 BadPorts\n",
        2,
    ),
    ("rule = []\n", "refused 0 Toml\n", 2),
];

#[test]
fn rules_are_judged(rt: HostRuntime) -> Result<(), Fail> {
    for &(document, report, status) in &RULES {
        assert_outcome(&rt, rt.alloc(), &["rules"], document, 64, report, status)?;
    }
    Ok(())
}

/// Documents, what their replays report, and the statuses. A document is replayed as the script that it
/// is: its lines are those of `topology` and then those of `events`, and a key that is missing has none. A
/// document that can't be read, or has another key, is refused as a whole; a line of one is refused by its
/// number.
const DOCUMENTS: [(&str, &str, u8); 5] = [
    (
        "events = [\"send a 4500001c0001000004119ecf0a0001010a0003011389138a00080000\"]\ntopology = [\"node a 10.0.1.1\", \"route a 10.0.0.0/8 local\"]\n",
        "deliver a 1 4500001c0001000004119ecf0a0001010a0003011389138a00080000\nend events 1 sent 1 delivered 1 dropped 0 refused 0 losses 0 redirects 0 switched 0 chance 0\n",
        0,
    ),
    (
        "",
        "end events 0 sent 0 delivered 0 dropped 0 refused 0 losses 0 redirects 0 switched 0 chance 0\n",
        0,
    ),
    (
        "topology = [\"node a 10.0.1.1\"]\nevents = [\"tick a\", \"tick b\"]\n",
        "refused 3 UnknownName\n",
        2,
    ),
    (
        "topology = [\"node a 10.0.1.1\"]\nevent = []\n",
        "refused 0 Toml\n",
        2,
    ),
    ("topology = [\"node a 10.0.1.1\"\n", "refused 0 Toml\n", 2),
];

#[test]
fn documents_are_replayed(rt: HostRuntime) -> Result<(), Fail> {
    for &(document, report, status) in &DOCUMENTS {
        assert_outcome(
            &rt,
            rt.alloc(),
            &["replay", "toml"],
            document,
            64,
            report,
            status,
        )?;
    }
    Ok(())
}

/// A drill reads nothing, so a source that would fail doesn't; what it writes was counted by another
/// program.
#[test]
fn drills_are_replayed(rt: HostRuntime) -> Result<(), Fail> {
    let mut source = source_of(rt.alloc(), "", 4096, &[1])?;
    let words = ["drill", "1"];
    let run = outcome_over(rt.alloc(), &words, &mut source, 4096, &[])?;
    assert_run(&rt, &run, &words, "", DRILL_REPORT, 0);
    Ok(())
}

const DRILL_REPORT: &str =
    "end events 915 sent 400 delivered 338 dropped 0 refused 0 losses 93 redirects 47 switched 1319 chance 0\n";

/// Messages of both protocols as text, the refusals of their octets, and the refusals of lines: the
/// protocol, the input, what is written, and the status. The octets are written by hand from the layouts,
/// with Python's sums for the checksums.
const MESSAGES: [(&str, &str, &str, u8); 9] = [
    ("ifmp", "", "", 0),
    (
        "ifmp",
        "# a Redirect\n0104766b0000000100000002000000070104003c00000020450003110a0001010a0003011389138a\n",
        "redirect from 1 to 2 number 7 lifetime 60 label 0/32 flow 450003110a0001010a0003011389138a\n",
        0,
    ),
    (
        "ifmp",
        "0104766b0000000100000002000000070104003c00000020450003110a0001010a000301138913\n0104766b\n",
        "refuse Size\nrefuse Size\n",
        0,
    ),
    (
        "ifmp",
        "010476a70000000100000002000000070104000000000020450003110a0001010a0003011389138a",
        "refuse ZeroLifetime\n",
        0,
    ),
    (
        "ifmp",
        "0104746b0000000100000002000000070304003c00000020450003110a0001010a0003011389138a\n0109766b\n",
        "refuse FlowType\nrefuse OpCode\n",
        0,
    ),
    (
        "gsmp",
        "AAAA03000000880C0110020000000005000000090000000100000020000000000010002000000000\n",
        "addbranch request 0 transaction 5 session 9 input 1 0/32 output 0 16/32 branches 0 priority 0\n",
        0,
    ),
    (
        "gsmp",
        "\n0104766b\naaaa03000000880b0110020000000005\n",
        "refuse Short\nrefuse Snap\n",
        0,
    ),
    (
        "gsmp",
        "00\n0g\n00\n",
        "refuse Short\nrefused 2 BadHex\n",
        2,
    ),
    ("ifmp", "# two words\n00 00\n", "refused 2 Arity\n", 2),
];

#[test]
fn messages_are_decoded(rt: HostRuntime) -> Result<(), Fail> {
    for &(protocol, input, text, status) in &MESSAGES {
        assert_outcome(
            &rt,
            rt.alloc(),
            &["decode", protocol],
            input,
            4096,
            text,
            status,
        )?;
    }
    Ok(())
}

/// A cell that crosses a link under a label, from the trace of its network.
pub const GOOD_TRACE: &str =
    "link a:1 b:1\nbind b 1 0/32 450003110a0001010a0003011389138a\nframe 1.1 001c00010000a2cf00080000\nput a:1 0/32 1.1\ntake a:1\nend\n";

pub const YES: &str = "yes links 1 puts 1 binds 1\n";

/// The same, but that its label is bound anew while the cell is on the way.
pub const REUSED_TRACE: &str =
    "link a:1 b:1\nbind b 1 0/32 450003110a0001010a0003011389138a\nframe 1.1 001c00010000a2cf00080000\nput a:1 0/32 1.1\nbind b 1 0/32 450003110a0001010a0003011389138a\nend\n";

pub const NO: &str = "no 5 Reuse\n";

/// Traces, what their audits write, and the statuses. A line that is refused; a trace that isn't whole; and
/// lines behind the one that settles a trace, which don't count.
const TRACES: [(&str, &str, u8); 5] = [
    (GOOD_TRACE, YES, 0),
    (REUSED_TRACE, NO, 6),
    ("link a:1 a:1\n", "refused 1 SelfLink\n", 2),
    ("link a:1 b:1\n\n# no end\n", "refused 4 NoEnd\n", 2),
    ("link a:1 b:1\nlost b:1\nx\n", "no 2 Empty\n", 6),
];

/// How many octets a read or a write has at most.
const PIECES: [usize; 3] = [1, 7, 4096];

#[test]
fn traces_are_audited(rt: HostRuntime) -> Result<(), Fail> {
    for &piece in &PIECES {
        for &(trace, verdict, status) in &TRACES {
            assert_outcome(&rt, rt.alloc(), &["audit"], trace, piece, verdict, status)?;
        }
    }
    Ok(())
}
