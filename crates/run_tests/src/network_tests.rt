//! Networks of whose reports the lines that matter are known; frames that no actor made; and a source that
//! fails behind its last line.

use crate::script_tests::{
    ONE_NODE, ONE_PACKET, THREE_ROUTERS, TWO_MET, TWO_ROUTERS, outcome, outcome_over, push_parts,
    source_of, text_of,
};
use lab_io::{MemSink, read_to_end};
use net_types::OutOfMemory;
use std::alloc::Global;
use std::process::Abort;
use std::str;
use std::test::Fail;

/// Whether these lines stand in a report in this order, perhaps with others between them.
fn has_in_order(report: &str, wanted: &[&str]) -> bool {
    let mut lines = report.lines();
    for wanted_line in wanted {
        if !lines.any(|line| line == *wanted_line) {
            return false;
        }
    }
    true
}

/// How many lines of a report begin so.
fn count_of(report: &str, beginning: &str) -> usize {
    report
        .lines()
        .filter(|line| line.starts_with(beginning))
        .count()
}

/// Whether the last line of a report begins so.
fn has_end(report: &str, beginning: &str) -> bool {
    report
        .lines()
        .last()
        .is_some_and(|line| line.starts_with(beginning))
}

/// Both controllers have met their switches, and then one another.
const MET: &str = "tick *\nrun 200\ntick *\nrun 200\n";

const FOUR_ROUTERS: &str =
    "node n1 10.0.1.1\nnode n2 10.0.2.1\nnode n3 10.0.3.1\nnode n4 10.0.4.1\nlink n1:2 n2:1\nlink n2:2 n3:1\nlink n3:2 n4:1\nroute n1 10.0.0.0/8 via 2\nroute n2 10.0.0.0/8 via 2\nroute n3 10.0.0.0/8 via 2\nroute n4 10.0.0.0/8 local\n";

const FAR_PACKET: &str = "send n1 4500001c00010000201182cf0a0001010a0003011389138a00080000\n";

/// Four packets of a flow, and what becomes of them.
const COUNTED: &[(&str, u32)] = &[(MET, 1), (ONE_PACKET, 4), ("run 100\n", 1)];

/// Four packets of a flow, which get it a label, and one that comes under it.
const BOUND: &[(&str, u32)] = &[
    (MET, 1),
    (ONE_PACKET, 4),
    ("run 100\ntick *\nrun 200\n", 1),
    (ONE_PACKET, 1),
    ("run 40\n", 1),
];

/// Four packets of a flow over three links, which get it labels, and 36 more.
const JOINED: &[(&str, u32)] = &[
    (MET, 1),
    (FAR_PACKET, 4),
    ("run 100\ntick *\nrun 200\n", 1),
    (FAR_PACKET, 36),
    ("run 400\n", 1),
];

/// A script in parts, each so many times: a network, a flow over it, and what comes behind. Of its report the lines
/// that stand in it in this order, how many lines begin so, and how its last line begins.
struct Network {
    opening: &'static [(&'static str, u32)],
    flow: &'static [(&'static str, u32)],
    ending: &'static [(&'static str, u32)],
    lines: &'static [&'static str],
    counts: &'static [(&'static str, usize)],
    end: &'static str,
}

/// A flow whose fourth packet gets it a label, under which a fifth comes; one whose label is idle, and is
/// spare again. A restart at the label's node: the next packet comes without a label, and no label is bound
/// before the neighbours have met. A restart in the middle of a join: the switch keeps it until the controller
/// has met the switch, and then what comes under the label is lost; the label is bound anew once the
/// neighbours have met. A switch that restarts, and is met again. A switch with room for one cell, which never
/// says which ports it has: nothing is connected there. A flow whose label has a VPI. A policy that offers nothing,
/// and one that offers a flow a label at its second packet in ten ticks.
const NETWORKS: [Network; 9] = [
    Network {
        opening: &[(TWO_ROUTERS, 1)],
        flow: BOUND,
        ending: &[],
        lines: &[
            "open a 1",
            "open b 1",
            "deliver b 1 4500001c0001000003119fcf0a0001010a0003011389138a00080000",
            "deliver b 2 4500001c0001000003119fcf0a0001010a0003011389138a00080000",
            "deliver b 3 4500001c0001000003119fcf0a0001010a0003011389138a00080000",
            "deliver b 4 4500001c0001000003119fcf0a0001010a0003011389138a00080000",
            "bind b 1 32 450003110a0001010a0003011389138a",
            "deliver b 5 4500001c0001000003119fcf0a0001010a0003011389138a00080000",
        ],
        counts: &[("deliver b ", 5)],
        end: "end events 13 sent 5 delivered 5 dropped 0 refused 0 losses 0 redirects 1 switched 0 chance 0",
    },
    Network {
        opening: &[(TWO_ROUTERS, 1), ("timers 60 20 1\n", 1)],
        flow: COUNTED,
        ending: &[(MET, 1), ("tick *\nrun 200\n", 1)],
        lines: &[
            "bind b 1 32 450003110a0001010a0003011389138a",
            "free b 1 32",
        ],
        counts: &[],
        end: "end events 15 sent 4 delivered 4 dropped 0 refused 0 losses 0 redirects 1 switched 0 chance 0",
    },
    Network {
        opening: &[(TWO_ROUTERS, 1)],
        flow: BOUND,
        ending: &[
            ("restart b\n", 1),
            (MET, 1),
            ("tick *\nrun 200\n", 1),
            (ONE_PACKET, 1),
            ("run 40\n", 1),
        ],
        lines: &[
            "open b 1",
            "bind b 1 32 450003110a0001010a0003011389138a",
            "close b 1",
            "deliver b 6 4500001c0001000003119fcf0a0001010a0003011389138a00080000",
        ],
        counts: &[("open b 1", 1), ("bind b 1 32 ", 1), ("loss 6.", 0)],
        end: "end events 22 sent 6 delivered 6 dropped 0 refused 0 ",
    },
    Network {
        opening: &[(FOUR_ROUTERS, 1)],
        flow: JOINED,
        ending: &[
            ("restart n2\n", 1),
            (FAR_PACKET, 1),
            ("run 100\n", 1),
            (MET, 1),
            (FAR_PACKET, 1),
            ("run 100\n", 1),
            (MET, 4),
            (FAR_PACKET, 4),
            ("run 100\n", 1),
        ],
        lines: &[
            "bind n2 1 32 45001f110a0001010a0003011389138a",
            "join n2 1 32 2 32",
            "close n2 1",
            "deliver n4 41 4500001c000100001d1185cf0a0001010a0003011389138a00080000",
            "loss 42.1 Unconnected",
            "open n2 1",
            "bind n2 1 32 45001f110a0001010a0003011389138a",
        ],
        counts: &[("bind n2 1 32 ", 2), ("loss 42.", 1)],
        end: "end events 78 sent 46 delivered 45 dropped 0 refused 0 ",
    },
    Network {
        opening: &[
            (THREE_ROUTERS, 1),
            ("tick *\nrun 200\nrestartswitch b\n", 1),
        ],
        flow: &[(ONE_PACKET, 1), ("run 20\n", 1)],
        ending: &[(MET, 1), (ONE_PACKET, 1), ("run 100\n", 1)],
        lines: &[
            "loss 1.1 Unconnected",
            "deliver c 2 4500001c000100000211a0cf0a0001010a0003011389138a00080000",
        ],
        counts: &[("deliver ", 1)],
        end: "end events 11 sent 2 delivered 1 dropped 0 refused 0 ",
    },
    Network {
        opening: &[(FOUR_ROUTERS, 1), ("cells n2 1\n", 1)],
        flow: JOINED,
        ending: &[],
        lines: &[],
        counts: &[
            ("bad ", 0),
            ("chance ", 0),
            ("bind n2 ", 0),
            ("join n2 ", 0),
        ],
        end: "end events 48 sent 40 ",
    },
    Network {
        opening: &[
            ("version 2\n", 1),
            (TWO_ROUTERS, 1),
            ("labels a 1 3/40 3/40\nlabels b 1 3/40 3/40\n", 1),
        ],
        flow: BOUND,
        ending: &[],
        lines: &[
            "open a 1",
            "open b 1",
            "deliver b 4 4500001c0001000003119fcf0a0001010a0003011389138a00080000",
            "bind b 1 3/40 450003110a0001010a0003011389138a",
            "deliver b 5 4500001c0001000003119fcf0a0001010a0003011389138a00080000",
        ],
        counts: &[("deliver b ", 5)],
        end: "end events 13 sent 5 delivered 5 dropped 0 refused 0 losses 0 redirects 1 switched 0 chance 0",
    },
    Network {
        opening: &[(TWO_ROUTERS, 1), ("policy never\n", 1)],
        flow: BOUND,
        ending: &[],
        lines: &[],
        counts: &[("deliver b ", 5), ("bind ", 0)],
        end: "end events 13 sent 5 delivered 5 dropped 0 refused 0 losses 0 redirects 0 switched 0 chance 0",
    },
    Network {
        opening: &[(TWO_ROUTERS, 1), ("policy xy 2 10\n", 1)],
        flow: &[(MET, 1), (ONE_PACKET, 2), ("run 100\n", 1)],
        ending: &[],
        lines: &[
            "deliver b 2 4500001c0001000003119fcf0a0001010a0003011389138a00080000",
            "bind b 1 32 450003110a0001010a0003011389138a",
        ],
        counts: &[("deliver b ", 2)],
        end: "end events 7 sent 2 delivered 2 dropped 0 refused 0 losses 0 redirects 1 switched 0 chance 0",
    },
];

fn script_of(alloc: Global, network: &Network) -> Result<String, OutOfMemory> {
    let mut script = text_of(alloc, network.opening)?;
    push_parts(&mut script, network.flow)?;
    push_parts(&mut script, network.ending)?;
    Ok(script)
}

fn assert_reported(rt: &impl Abort, report: &str, network: &Network) {
    assert!(rt; has_in_order(report, network.lines), "{report}");
    for (beginning, count) in network.counts {
        assert_eq!(rt; count_of(report, beginning), *count, "{beginning} {report}");
    }
    assert!(rt; has_end(report, network.end), "{report}");
}

fn assert_network(rt: &impl Abort, alloc: Global, network: &Network) -> Result<(), Fail> {
    let script = script_of(alloc, network)?;
    let (given, sink) = outcome(alloc, &["replay"], script.as_str(), 4096)?;
    assert_eq!(rt; given, 0, "{script}");
    assert_reported(rt, str::from_utf8(sink.written())?, network);
    Ok(())
}

#[test]
fn worked_networks(rt: HostRuntime) -> Result<(), Fail> {
    for network in &NETWORKS {
        assert_network(&rt, rt.alloc(), network)?;
    }
    Ok(())
}

/// Rules that deny the flow of the packets, and offer labels to all others.
const DENYING: &str =
    "rules = [\"deny udp 10.0.1.0/24 10.0.0.0/8 any any\", \"offer any 0.0.0.0/0 0.0.0.0/0 any any after 4 keep 40\"]\n";

/// A line as a string of a document's array.
fn push_string(text: &mut String, line: &str) -> Result<(), OutOfMemory> {
    text.push_str("  \"")?;
    text.push_str(line)?;
    text.push_str("\",\n")?;
    Ok(())
}

/// An array of lines.
fn push_array(text: &mut String, key: &str, lines: &str) -> Result<(), OutOfMemory> {
    text.push_str(key)?;
    text.push_str(" = [\n")?;
    for line in lines.lines() {
        push_string(text, line)?;
    }
    text.push_str("]\n")?;
    Ok(())
}

/// A document with these rules, of two routers between which a flow is bound without them.
fn bound_document(alloc: Global, rules: &str) -> Result<String, OutOfMemory> {
    let events = text_of(alloc, BOUND)?;
    let mut document = text_of(alloc, &[(rules, 1)])?;
    push_array(&mut document, "topology", TWO_ROUTERS)?;
    push_array(&mut document, "events", events.as_str())?;
    Ok(document)
}

/// A flow that rules deny goes hop by hop, and its packets arrive as they would under a label.
#[test]
fn rules_are_the_policy(rt: HostRuntime) -> Result<(), Fail> {
    let document = bound_document(rt.alloc(), DENYING)?;
    let (given, sink) = outcome(rt.alloc(), &["replay", "toml"], document.as_str(), 4096)?;
    let report = str::from_utf8(sink.written())?;
    assert_eq!(rt; given, 0, "{report}");
    assert_eq!(rt; count_of(report, "deliver b "), 5, "{report}");
    assert_eq!(rt; count_of(report, "bind "), 0, "{report}");
    assert!(rt;
        has_end(
            report,
            "end events 13 sent 5 delivered 5 dropped 0 refused 0 losses 0 redirects 0 switched 0 chance 0"
        ),
        "{report}"
    );
    Ok(())
}

/// What nobody made comes to an actor, which says why it refuses it, and does nothing else.
fn assert_refused(
    rt: &impl Abort,
    alloc: Global,
    begun: &str,
    queue: &str,
    frame: &str,
    why: &str,
) -> Result<(), Fail> {
    let script = format!(in alloc; "{begun}forge {queue} {frame}\nrun 40\n")?;
    let (given, sink) = outcome(alloc, &["replay"], script.as_str(), 4096)?;
    let report = str::from_utf8(sink.written())?;
    let wanted = format!(in alloc; "forged {queue}\nbad b {why}\nend events ")?;
    assert_eq!(rt; given, 0, "{script}");
    assert!(rt; report.contains(wanted.as_str()), "{script}{report}");
    Ok(())
}

/// Frames of the default encapsulation and of GSMP, each with the queue that it joins and the first test that it
/// fails. The octets are written by hand from the layouts, with Python's sums for the checksums.
const REFUSED_FRAMES: [(&str, &str, &str); 31] = [
    ("a:1", "0/15 aaaa0300000008", "encaps Short"),
    (
        "a:1",
        "0/15 aaaa0300000008064500001c0001000004119ecf0a0001010a0003011389138a00080000",
        "encaps BadSnap",
    ),
    (
        "a:1",
        "0/15 aaaa0300000008004500001c0001000004119ecf0a0001010a0003",
        "packet Short",
    ),
    (
        "a:1",
        "0/15 aaaa0300000008006500001c0001000004117ecf0a0001010a0003011389138a00080000",
        "packet Version",
    ),
    (
        "a:1",
        "0/15 aaaa0300000008004600001c0001000004119dcf0a0001010a0003011389138a00080000",
        "packet Options",
    ),
    (
        "a:1",
        "0/15 aaaa0300000008004500001d0001000004119ece0a0001010a0003011389138a00080000",
        "packet Length",
    ),
    (
        "a:1",
        "0/15 aaaa0300000008004500001c0001000004119ece0a0001010a0003011389138a00080000",
        "packet Checksum",
    ),
    (
        "a:1",
        "0/15 aaaa03000000080045000017000000000165ae820a000101ffffffff0104ff",
        "ifmp Short",
    ),
    (
        "a:1",
        "0/15 aaaa0300000008004500003c000000000165ae5d0a000101ffffffff0204756b0000000100000002000000070104003c00000020450003110a0001010a0003011389138a",
        "ifmp Version",
    ),
    (
        "a:1",
        "0/15 aaaa0300000008004500003c000000000165ae5d0a000101ffffffff010976660000000100000002000000070104003c00000020450003110a0001010a0003011389138a",
        "ifmp OpCode",
    ),
    (
        "a:1",
        "0/15 aaaa03000000080045000028000000000165ae710a000101ffffffff0107fece00000001000000020000000700000020",
        "ifmp Size",
    ),
    (
        "a:1",
        "0/15 aaaa0300000008004500003c000000000165ae5d0a000101ffffffff0104766a0000000100000002000000070104003c00000020450003110a0001010a0003011389138a",
        "ifmp Checksum",
    ),
    (
        "a:1",
        "0/15 aaaa0300000008004500003c000000000165ae5d0a000101ffffffff0104746b0000000100000002000000070304003c00000020450003110a0001010a0003011389138a",
        "ifmp FlowType",
    ),
    (
        "a:1",
        "0/15 aaaa0300000008004500003c000000000165ae5d0a000101ffffffff0104766c0000000100000002000000070103003c00000020450003110a0001010a0003011389138a",
        "ifmp FlowLength",
    ),
    (
        "a:1",
        "0/15 aaaa0300000008004500003c000000000165ae5d0a000101ffffffff010476a70000000100000002000000070104000000000020450003110a0001010a0003011389138a",
        "ifmp ZeroLifetime",
    ),
    (
        "a:1",
        "0/15 aaaa0300000008004500003c000000000165ae5d0a000101ffffffff0104756b0000000100000002000000070104003c01000020450003110a0001010a0003011389138a",
        "ifmp LabelReserved",
    ),
    (
        "a:1",
        "0/15 aaaa0300000008004500002c000000000165ae6d0a000101ffffffff0107fe6f0000000100000002000000070000005f00000020",
        "ifmp RangeOrder",
    ),
    (
        "a:1",
        "0/15 aaaa0300000008004500002c000000000165ae6d0a000101ffffffff0108f9cd0000000100000002000000070500000000000020",
        "ifmp ErrorCode",
    ),
    (
        "a:1",
        "0/15 aaaa0300000008004500003c000000000165ae5d0a000101ffffffff010576a50000000100000002000000070104000100000020450003110a0001010a0003011389138a",
        "ifmp Reserved",
    ),
    (
        "a:1",
        "0/15 aaaa03000000080045000038000000000165ae610a000101ffffffff01049c8f0000000100000002000000070203003c00000020450103000a0001010a000301",
        "ifmp Reserved",
    ),
    (
        "a:1",
        "0/15 aaaa0300000008004500003c000000000165ae5d0a000101ffffffff0104796b0000000100000002000000070104003c00000020450000110a0001010a0003011389138a",
        "ifmp FlowFields",
    ),
    ("b:c", "0/15 aaaa03000000880c010200", "gsmp Short"),
    (
        "b:c",
        "0/15 aaaa03000000880b0110020000000005000000000000000000000000000000000000000000000000",
        "gsmp Snap",
    ),
    ("b:c", "0/15 aaaa03000000880c02100000", "gsmp Version"),
    (
        "b:c",
        "0/15 aaaa03000000880c0111020000000005000000090000000100000020000000000010002000000000",
        "gsmp MessageType",
    ),
    (
        "b:c",
        "0/15 aaaa03000000880c0110010000000005000000090000000100000020000000000010002000000000",
        "gsmp Result",
    ),
    (
        "b:c",
        "0/15 aaaa03000000880c0110020100000005000000090000000100000020000000000010002000000000",
        "gsmp Code",
    ),
    (
        "b:c",
        "0/15 aaaa03000000880c0116020000000005000000090000000100000020000000000010002000000000",
        "gsmp Size",
    ),
    (
        "b:c",
        "0/15 aaaa03000000880c0110020000000005000000090000000100000020000000000010002000000100",
        "gsmp Reserved",
    ),
    (
        "b:0",
        "0/15 aaaa03000000880c0116020000000005000000090000000100000020000000000010002000000000",
        "gsmp Size",
    ),
    (
        "b:0",
        "0/15 aaaa03000000880c0110020000000005000000090000000100000020000000000010002000000100",
        "gsmp Reserved",
    ),
];

/// Labelled frames of a flow of type 1, and the first tests that they fail.
const REFUSED_OF_TYPE_1: [(&str, &str); 4] = [
    ("0/32 001c00010000a2", "encaps Short"),
    ("0/32 001c00010001a2ce00080000", "encaps Reserved"),
    ("0/32 001d00010000a2ce00080000", "encaps Length"),
    ("0/32 001c00010000a2ce00080000", "encaps Checksum"),
];

/// Labelled frames of a flow of type 2, and the first tests that they fail.
const REFUSED_OF_TYPE_2: [(&str, &str); 5] = [
    ("0/32 0000001c000100000001a2", "encaps Short"),
    (
        "0/32 0100001c000100000001a2df0800f7ff00000000",
        "encaps Reserved",
    ),
    (
        "0/32 0000001c000100000101a2df0800f7ff00000000",
        "encaps Reserved",
    ),
    (
        "0/32 0000001c000100000001a2df0800f7ff0000000000",
        "encaps Length",
    ),
    (
        "0/32 0000001c000100000001a2de0800f7ff00000000",
        "encaps Checksum",
    ),
];

/// What a packet of 1501 octets begins with.
const LONG_FRAME: &str = "0/15 aaaa030000000800450005dd000100000411990e0a0001010a0003011389138a";

fn assert_long_refused(rt: &impl Abort, alloc: Global) -> Result<(), Fail> {
    let frame = text_of(alloc, &[(LONG_FRAME, 1), ("00", 1477)])?;
    assert_refused(rt, alloc, TWO_MET, "a:1", frame.as_str(), "packet TooLong")
}

/// A packet of ICMP, whose flow is of type 2.
const ICMP_PACKET: &str = "send a 4500001c0001000004019edf0a0001010a0003010800f7ff00000000\n";

/// These frames are refused once four of these packets have got their flow a label.
fn assert_labelled_refused(
    rt: &impl Abort,
    alloc: Global,
    packet: &str,
    frames: &[(&str, &str)],
) -> Result<(), Fail> {
    let begun = text_of(
        alloc,
        &[
            (TWO_ROUTERS, 1),
            (MET, 1),
            (packet, 4),
            ("run 100\ntick *\nrun 200\n", 1),
        ],
    )?;
    for (frame, why) in frames {
        assert_refused(rt, alloc, begun.as_str(), "a:1", frame, why)?;
    }
    Ok(())
}

/// Each name under which a frame, a packet or a message is refused has a frame that gets it. For labelled frames
/// a label is bound first, to a flow of UDP and to one of ICMP.
#[test]
fn forged_frames(rt: HostRuntime) -> Result<(), Fail> {
    for &(queue, frame, why) in &REFUSED_FRAMES {
        assert_refused(&rt, rt.alloc(), TWO_MET, queue, frame, why)?;
    }
    assert_long_refused(&rt, rt.alloc())?;
    assert_labelled_refused(&rt, rt.alloc(), ONE_PACKET, &REFUSED_OF_TYPE_1)?;
    assert_labelled_refused(&rt, rt.alloc(), ICMP_PACKET, &REFUSED_OF_TYPE_2)
}

fn push_delivery(alloc: Global, report: &mut String, number: u32) -> Result<(), OutOfMemory> {
    let line = format!(in alloc;
        "deliver a {number} 4500001c0001000004119ecf0a0001010a0003011389138a00080000\n"
    )?;
    report.push_str(line.as_str())?;
    Ok(())
}

/// What is reported of so many packets.
fn deliveries(alloc: Global, count: u32) -> Result<String, OutOfMemory> {
    let mut report = String::new(alloc);
    for number in 1..=count {
        push_delivery(alloc, &mut report, number)?;
    }
    Ok(report)
}

/// The status of a replay whose source fails at this read, what the source has left, and the sink.
fn end_at(alloc: Global, script: &str, failing: u32) -> Result<(u8, Vec<u8>, MemSink), Fail> {
    let mut source = source_of(alloc, script, 4096, &[failing])?;
    let (status, sink) = outcome_over(alloc, &["replay"], &mut source, 4096, &[])?;
    let left = read_to_end(alloc, &mut source, 4096)?;
    Ok((status, left, sink))
}

/// How many packets are sent, and the read behind the last line, which fails.
const FRONTS: [(u32, u32); 2] = [(100, 3), (2000, 33)];

fn assert_front(rt: &impl Abort, alloc: Global, sends: u32, failing: u32) -> Result<(), Fail> {
    let script = text_of(alloc, &[(ONE_NODE, 1), (ONE_PACKET, sends)])?;
    let report = deliveries(alloc, sends)?;
    let (given, left, sink) = end_at(alloc, script.as_str(), failing)?;
    assert_eq!(rt; given, 3);
    assert!(rt; left.is_empty());
    assert!(rt; report.as_bytes().starts_with(sink.written()));
    assert!(rt; report.len() <= sink.written().len().saturating_add(65_536));
    Ok(())
}

/// A source that fails behind its last line, after so many reads. All its lines are read, and what is written is a
/// front of what they give, which lacks at most what one buffer holds.
#[test]
fn a_read_fault_leaves_a_front(rt: HostRuntime) -> Result<(), Fail> {
    for &(sends, failing) in &FRONTS {
        assert_front(&rt, rt.alloc(), sends, failing)?;
    }
    Ok(())
}
