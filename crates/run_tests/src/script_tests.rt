//! Worked scripts through `run`, over sources and sinks in memory.

use command_line::Word;
use commands::{run, run_surely};
use lab_io::{MemSink, MemSource, SureSink, SureSource};
use net_types::OutOfMemory;
use std::alloc::Global;
use std::process::Abort;
use std::test::Fail;
use world::Meter;

fn words_of(alloc: Global, texts: &[&str]) -> Result<Vec<Word>, OutOfMemory> {
    let mut words = Vec::new(alloc);
    for text in texts {
        words.push(Word::new(String::from_str(alloc, text)?))?;
    }
    Ok(words)
}

/// Writes parts behind a text, each so many times.
pub fn push_parts(text: &mut String, parts: &[(&str, u32)]) -> Result<(), OutOfMemory> {
    for (part, count) in parts {
        for _ in 0..*count {
            text.push_str(part)?;
        }
    }
    Ok(())
}

/// A text of parts, each so many times.
pub fn text_of(alloc: Global, parts: &[(&str, u32)]) -> Result<String, OutOfMemory> {
    let mut text = String::new(alloc);
    push_parts(&mut text, parts)?;
    Ok(text)
}

/// A source of a text in pieces of so many octets, one at least, whose reads fail at these calls.
pub fn source_of(
    alloc: Global,
    text: &str,
    piece: usize,
    failing: &[u32],
) -> Result<MemSource, OutOfMemory> {
    Ok(MemSource::new(
        text.as_bytes().to_vec(alloc)?,
        piece.max(1),
        failing.to_vec(alloc)?,
    ))
}

/// The status and the sink of a run over this source, and over a sink in pieces of so many octets
/// whose writes fail at these calls.
pub fn outcome_over(
    alloc: Global,
    texts: &[&str],
    source: &mut MemSource,
    piece: usize,
    failing: &[u32],
) -> Result<(u8, MemSink), OutOfMemory> {
    let words = words_of(alloc, texts)?;
    let mut sink = MemSink::new(alloc, piece, failing.to_vec(alloc)?)?;
    let mut meter = Meter::new();
    let status = run(alloc, words.as_slice(), source, &mut sink, &mut meter);
    Ok((status, sink))
}

/// The status and the sink of a run over a text and a sink, both in pieces of so many octets, of which
/// none fails.
pub fn outcome(
    alloc: Global,
    texts: &[&str],
    text: &str,
    piece: usize,
) -> Result<(u8, MemSink), OutOfMemory> {
    let mut source = source_of(alloc, text, piece, &[])?;
    outcome_over(alloc, texts, &mut source, piece, &[])
}

/// A run with these words over this text wrote this report and had this status.
pub fn assert_run(
    rt: &impl Abort,
    (given, sink): &(u8, MemSink),
    texts: &[&str],
    text: &str,
    report: &str,
    status: u8,
) {
    assert_eq!(rt; *given, status, "{texts:?} {text}");
    assert_eq!(rt; sink.written(), report.as_bytes(), "{texts:?} {text}");
}

/// A run with these words over this text, in pieces of so many octets, writes this report and has this
/// status.
pub fn assert_outcome(
    rt: &impl Abort,
    alloc: Global,
    texts: &[&str],
    text: &str,
    piece: usize,
    report: &str,
    status: u8,
) -> Result<(), Fail> {
    let run = outcome(alloc, texts, text, piece)?;
    assert_run(rt, &run, texts, text, report, status);
    Ok(())
}

fn surely(alloc: Global, words: &[Word], source: &mut SureSource, meter: &mut Meter) -> u8 {
    run_surely(alloc, words, source, &mut SureSink::new(), meter)
}

/// The status of a run over a text and a sink that never fail.
pub fn sure_status(
    alloc: Global,
    texts: &[&str],
    text: &str,
    meter: &mut Meter,
) -> Result<u8, OutOfMemory> {
    let words = words_of(alloc, texts)?;
    let mut source = SureSource::new(text.as_bytes().to_vec(alloc)?, 7);
    Ok(surely(alloc, words.as_slice(), &mut source, meter))
}

pub const ONE_NODE: &str = "node a 10.0.1.1\nroute a 10.0.0.0/8 local\n";

pub const TWO_ROUTERS: &str =
    "node a 10.0.1.1\nnode b 10.0.3.1\nlink a:1 b:1\nroute a 10.0.0.0/8 via 1\nroute b 10.0.0.0/8 local\n";

pub const THREE_ROUTERS: &str =
    "node a 10.0.1.1\nnode b 10.0.2.1\nnode c 10.0.3.1\nlink a:2 b:1\nlink b:2 c:1\nroute a 10.0.3.0/24 via 2\nroute b 10.0.3.0/24 via 2\nroute c 10.0.3.0/24 local\n";

/// The switches are met, and then a packet crosses two links.
pub const OVER_TWO_LINKS: &str =
    "tick *\nrun 200\nsend a 4500001c0001000004119ecf0a0001010a0003011389138a00080000\nrun 100\n";

/// Both controllers have met their switches.
pub const TWO_MET: &str =
    "node a 10.0.1.1\nnode b 10.0.3.1\nlink a:1 b:1\nroute a 10.0.0.0/8 via 1\nroute b 10.0.0.0/8 local\ntick *\nrun 200\n";

/// Three packets of two cells each; the last cell of the first is lost.
pub const LOSING: &str =
    "send a 450000280001000004119ec30a0001010a0003011389138a00140000000000000000000000000000\nsend a 450000280002000004119ec20a0001010a0003011389138a00140000000000000000000000000000\nsend a 450000280003000004119ec10a0001010a0003011389138a00140000000000000000000000000000\ncarry a:c\nlose a:c\nrun 20\n";

pub const LOSING_REPORT: &str =
    "loss 1.1 Lost\nloss 2.1 Broken\ndeliver b 3 450000280003000003119fc10a0001010a0003011389138a00140000000000000000000000000000\nend events 8 sent 3 delivered 1 dropped 0 refused 0 losses 2 redirects 0 switched 0 chance 0\n";

/// A script in two parts, what its replay reports, and the status.
struct Script {
    network: &'static str,
    events: &'static str,
    report: &'static str,
    status: u8,
}

/// A UDP packet delivered at the node that took it, at TTL 4 and 1; one whose TTL ends at the first
/// router; two that cross a link, whose canonical checksums are 0100 behind a field of FFFF, and 0000.
/// Three packets of two cells each, of which the last cell of the first is lost, which breaks the
/// second; and two equal packets, of which the last cell of the first and the first cell of the second
/// are lost, so that what is left is a frame again. A frame of three cells where two have room, and where
/// three have; a cell of the switch's greeting that is lost, before a line that is refused; forged frames
/// at a controller and at a switch; a packet over two links, and where the router between them takes it.
const SCRIPTS: [Script; 15] = [
    Script {
        network: "",
        events: "",
        report: "end events 0 sent 0 delivered 0 dropped 0 refused 0 losses 0 redirects 0 switched 0 chance 0\n",
        status: 0,
    },
    Script {
        network: ONE_NODE,
        events: "send a 4500001c0001000004119ecf0a0001010a0003011389138a00080000\n",
        report: "deliver a 1 4500001c0001000004119ecf0a0001010a0003011389138a00080000\nend events 1 sent 1 delivered 1 dropped 0 refused 0 losses 0 redirects 0 switched 0 chance 0\n",
        status: 0,
    },
    Script {
        network: ONE_NODE,
        events: "send a 4500001c000100000111a1cf0a0001010a0003011389138a00080000\n",
        report: "deliver a 1 4500001c000100000111a1cf0a0001010a0003011389138a00080000\nend events 1 sent 1 delivered 1 dropped 0 refused 0 losses 0 redirects 0 switched 0 chance 0\n",
        status: 0,
    },
    Script {
        network: TWO_ROUTERS,
        events: "send a 4500001c000100000111a1cf0a0001010a0003011389138a00080000\n",
        report: "drop a 1 Expired\nend events 1 sent 1 delivered 0 dropped 1 refused 0 losses 0 redirects 0 switched 0 chance 0\n",
        status: 0,
    },
    Script {
        network: TWO_ROUTERS,
        events: "tick *\nrun 200\nsend a 4500001c9ed000000411ffff0a0001010a0003011389138a00080000\nsend a 4500001c9fd000000411feff0a0001010a0003011389138a00080000\nrun 20\n",
        report: "deliver b 1 4500001c9ed00000031101000a0001010a0003011389138a00080000\ndeliver b 2 4500001c9fd00000031100000a0001010a0003011389138a00080000\nend events 5 sent 2 delivered 2 dropped 0 refused 0 losses 0 redirects 0 switched 0 chance 0\n",
        status: 0,
    },
    Script {
        network: TWO_MET,
        events: LOSING,
        report: LOSING_REPORT,
        status: 0,
    },
    Script {
        network: TWO_MET,
        events: "send a 450000280001000004119ec30a0001010a0003011389138a00140000000000000000000000000000\nsend a 450000280001000004119ec30a0001010a0003011389138a00140000000000000000000000000000\ncarry a:c\nlose a:c\nlose a:c\nrun 20\n",
        report: "loss 1.1 Lost\nloss 2.1 Lost\ndeliver b 2 450000280001000003119fc30a0001010a0003011389138a00140000000000000000000000000000\nend events 8 sent 2 delivered 1 dropped 0 refused 0 losses 2 redirects 0 switched 0 chance 0\n",
        status: 0,
    },
    Script {
        network: TWO_ROUTERS,
        events: "cells a 2\nsend a 450000540001000004119e970a0001010a0003011389138a004000000000000000000000000000000000000000000000000000000000000000000000000000000000000000000000000000000000000000000000\n",
        report: "loss 1.1 PoolFull\nend events 1 sent 1 delivered 0 dropped 0 refused 0 losses 1 redirects 0 switched 0 chance 0\n",
        status: 0,
    },
    Script {
        network: TWO_ROUTERS,
        events: "cells a 3\nsend a 450000540001000004119e970a0001010a0003011389138a004000000000000000000000000000000000000000000000000000000000000000000000000000000000000000000000000000000000000000000000\n",
        report: "end events 1 sent 1 delivered 0 dropped 0 refused 0 losses 0 redirects 0 switched 0 chance 0\n",
        status: 0,
    },
    Script {
        network: ONE_NODE,
        events: "send a 4500001c0001000004119ecf0a0001010a0003011389138a00080000\ntick a\ncarry a:c\nlose a:0\ncarry a:0\nrun 1\ntick z\n",
        report: "deliver a 1 4500001c0001000004119ecf0a0001010a0003011389138a00080000\nloss 0.2 Lost\nrefused 9 UnknownName\n",
        status: 2,
    },
    Script {
        network: TWO_MET,
        events: "forge a:1 0/15 00\nrun 20\n",
        report: "forged a:1\nbad b encaps Short\nend events 4 sent 0 delivered 0 dropped 0 refused 0 losses 0 redirects 0 switched 0 chance 0\n",
        status: 0,
    },
    Script {
        network: TWO_ROUTERS,
        events: "forge b:c 0/15 aaaa03000000880c02100000\nrun 1\n",
        report: "forged b:c\nbad b gsmp Version\nend events 2 sent 0 delivered 0 dropped 0 refused 0 losses 0 redirects 0 switched 0 chance 0\n",
        status: 0,
    },
    Script {
        network: TWO_MET,
        events: "forge a:1 0/15 aaaa0300000008004500001c0001000004119ed00a0001010a0003011389138a00080000\nrun 20\n",
        report: "forged a:1\nbad b packet Checksum\nend events 4 sent 0 delivered 0 dropped 0 refused 0 losses 0 redirects 0 switched 0 chance 0\n",
        status: 0,
    },
    Script {
        network: THREE_ROUTERS,
        events: OVER_TWO_LINKS,
        report: "deliver c 1 4500001c000100000211a0cf0a0001010a0003011389138a00080000\nend events 4 sent 1 delivered 1 dropped 0 refused 0 losses 0 redirects 0 switched 0 chance 0\n",
        status: 0,
    },
    Script {
        network: THREE_ROUTERS,
        events: "tick *\nrun 200\nsetroute b 10.0.3.0/24 local\nsend a 4500001c0001000004119ecf0a0001010a0003011389138a00080000\nrun 100\n",
        report: "routes b 1\ndeliver b 1 4500001c0001000003119fcf0a0001010a0003011389138a00080000\nend events 5 sent 1 delivered 1 dropped 0 refused 0 losses 0 redirects 0 switched 0 chance 0\n",
        status: 0,
    },
];

/// The replay of a script of these parts, each so many times, writes this report and has this status.
fn assert_replayed(
    rt: &impl Abort,
    alloc: Global,
    parts: &[(&str, u32)],
    report: &str,
    status: u8,
) -> Result<(), Fail> {
    let script = text_of(alloc, parts)?;
    assert_outcome(
        rt,
        alloc,
        &["replay"],
        script.as_str(),
        4096,
        report,
        status,
    )
}

#[test]
fn worked_scripts(rt: HostRuntime) -> Result<(), Fail> {
    for row in &SCRIPTS {
        let parts = [(row.network, 1), (row.events, 1)];
        assert_replayed(&rt, rt.alloc(), &parts, row.report, row.status)?;
    }
    Ok(())
}

/// The meter has the events of a packet's way over two links: ticks of six actors, 300 rounds of ten
/// queues, and the packet.
#[test]
fn the_meter_counts_events(rt: HostRuntime) -> Result<(), Fail> {
    let script = text_of(rt.alloc(), &[(THREE_ROUTERS, 1), (OVER_TWO_LINKS, 1)])?;
    let mut meter = Meter::new();
    let given = sure_status(rt.alloc(), &["replay"], script.as_str(), &mut meter)?;
    assert_eq!(rt; given, 0);
    assert_eq!(rt; meter.events(), 3007);
    assert_eq!(rt; meter.counts().delivered, 1);
    Ok(())
}

/// What a script begins with, what it goes on with, so many times, what its replay reports, and the status.
struct LongScript {
    beginning: &'static str,
    repeated: &'static str,
    count: u32,
    report: &'static str,
    status: u8,
}

/// A packet of 1501 octets whose Total Length says so; and a line of 5000 letters.
const LONG_SCRIPTS: [LongScript; 2] = [
    LongScript {
        beginning: "node a 10.0.1.1\nsend a 450005dd",
        repeated: "00",
        count: 1497,
        report: "refuse a 1 TooLong\nend events 1 sent 1 delivered 0 dropped 0 refused 1 losses 0 redirects 0 switched 0 chance 0\n",
        status: 0,
    },
    LongScript {
        beginning: ONE_NODE,
        repeated: "x",
        count: 5000,
        report: "refused 3 LineTooLong\n",
        status: 2,
    },
];

#[test]
fn long_lines(rt: HostRuntime) -> Result<(), Fail> {
    for row in &LONG_SCRIPTS {
        let parts = [(row.beginning, 1), (row.repeated, row.count)];
        assert_replayed(&rt, rt.alloc(), &parts, row.report, row.status)?;
    }
    Ok(())
}

pub const USAGE: &str =
    "usage: ipswitch replay|replay toml|ideal|decode ifmp|decode gsmp|drill N|rules|trace|audit|console|show|journal|capture\n";

/// Words that ask for nothing.
const OTHER_WORDS: [&[&str]; 13] = [
    &[],
    &["replay", "x"],
    &["replay", "toml", "x"],
    &["drill"],
    &["drill", "x"],
    &["help"],
    &["--help"],
    &["decode"],
    &["ideal", "x"],
    &["decode", "ifmp", "gsmp"],
    &["audit", "x"],
    &["console", "x"],
    &["show", "x"],
];

/// Words that ask for nothing get the usage line.
#[test]
fn other_words_are_usage(rt: HostRuntime) -> Result<(), Fail> {
    for &words in &OTHER_WORDS {
        assert_outcome(&rt, rt.alloc(), words, "", 4096, USAGE, 1)?;
    }
    Ok(())
}

/// Lines that are refused as the seventh of a script, and what is reported.
const REFUSED_LINES: [(&str, &str); 19] = [
    ("node a 10.0.1.1", "refused 7 DuplicateName\n"),
    ("node 1a 10.0.9.1", "refused 7 BadName\n"),
    ("node c 10.0.9.256", "refused 7 BadAddress\n"),
    ("link a:1 b:2", "refused 7 PortTaken\n"),
    ("link a:2 a:3", "refused 7 SelfLink\n"),
    ("link a:2 b:9", "refused 7 BadPlace\n"),
    ("route a 10.0.0.0/8 local", "refused 7 Duplicate\n"),
    ("route a 10.0.0.1/8 local", "refused 7 BadPrefix\n"),
    ("route a 11.0.0.0/8 via 2", "refused 7 NoLink\n"),
    ("send c 00", "refused 7 UnknownName\n"),
    ("send a 000", "refused 7 BadHex\n"),
    ("carry a:2", "refused 7 NoLink\n"),
    ("lose a:9", "refused 7 BadPlace\n"),
    ("lose a", "refused 7 BadPlace\n"),
    ("tick", "refused 7 Arity\n"),
    ("forge a:1 256/15 00", "refused 7 BadChannel\n"),
    ("forward a:1", "refused 7 UnknownWord\n"),
    ("unroute a 10.0.0.0/9", "refused 7 NoPrefix\n"),
    ("labels b 1 3/40 3/40", "refused 7 BadNumber\n"),
];

/// Each refused line ends the script with its number.
#[test]
fn refused_lines(rt: HostRuntime) -> Result<(), Fail> {
    for &(line, report) in &REFUSED_LINES {
        let parts = [
            (TWO_ROUTERS, 1),
            ("\n", 1),
            (line, 1),
            ("\nnode d 10.0.4.1\n", 1),
        ];
        assert_replayed(&rt, rt.alloc(), &parts, report, 2)?;
    }
    Ok(())
}

pub const ONE_PACKET: &str = "send a 4500001c0001000004119ecf0a0001010a0003011389138a00080000\n";
