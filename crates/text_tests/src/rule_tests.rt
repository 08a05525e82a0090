//! Flow rules: what they decide, and how documents of them are judged.

use flow_policy::{Decision, RuleSet};
use ipv4_packet::FlowId;
use net_types::{Addr, OutOfMemory};
use rule_report::judge_rules;

/// 10.0.1.1 and 10.0.3.1.
const SOURCE: Addr = Addr(0x0a00_0101);

const DESTINATION: Addr = Addr(0x0a00_0301);

/// The flow of type 1 from port 5001 to port 5002 over this protocol.
fn connection(protocol: u8) -> FlowId {
    FlowId::One {
        tos: 0,
        ttl: 3,
        protocol,
        source: SOURCE,
        destination: DESTINATION,
        source_port: 5001,
        destination_port: 5002,
    }
}

/// Lines of rules, and whether each is one.
const LINES: [(&[u8], bool); 4] = [
    (b"# the order decides", false),
    (b"deny udp 10.0.1.0/24 10.0.0.0/8 any 5002-5002", true),
    (
        b"offer any 0.0.0.0/0 0.0.0.0/0 any any after 4 keep 40",
        true,
    ),
    (
        b"offer two 10.0.1.1/32 10.0.3.0/24 any any after 1 keep 1",
        true,
    ),
];

/// What the rule of the third line decides.
const OFFER: Option<Decision> = Some(Decision::Offer { after: 4, keep: 40 });

/// Protocols, and what is decided of a flow of type 1 over each.
const DECISIONS: [(u8, Option<Decision>); 3] = [(17, Some(Decision::Deny)), (6, OFFER), (1, None)];

#[test]
fn the_first_rule_that_matches_decides(rt: HostRuntime) -> Result<(), OutOfMemory> {
    let mut rules = RuleSet::open(rt.alloc())?;
    for &(line, is_rule) in &LINES {
        assert!(rt;
            matches!(rules.line(line), Ok(told) if told == is_rule),
            "{line:?}"
        );
    }
    let hosts = FlowId::Two {
        ttl: 3,
        source: SOURCE,
        destination: DESTINATION,
    };
    assert!(rt; rules.decide(&hosts) == OFFER);
    for &(protocol, decision) in &DECISIONS {
        assert!(rt;
            rules.decide(&connection(protocol)) == decision,
            "{protocol}"
        );
    }
    Ok(())
}

/// Documents, and their judgements.
const DOCUMENTS: [(&[u8], &str, bool); 5] = [
    (
        b"rules = ['offer any 0.0.0.0/0 0.0.0.0/0 any any after 4 keep 40', 'deny udp 10.0.1.0/24 10.0.0.0/8 any any']",
        "rule 1\nrule 2 covered 1\nend rules 2 covered 1\n",
        false,
    ),
    (b"events = ['nonsense']", "end rules 0 covered 0\n", false),
    (
        b"rules = ['deny two 0.0.0.0/0 0.0.0.0/0 any any', 'deny two 0.0.0.0/0 0.0.0.0/0 any any after 1 keep 1']",
        "rule 1\nrefused 2 Arity\n",
        true,
    ),
    (
        b"rules = ['deny two 10.0.1.0/24 10.0.1.1/32 any 0-65535']",
        "refused 1 BadPorts\n",
        true,
    ),
    (b"topology = 'node a 10.0.1.1'", "refused 0 Toml\n", true),
];

#[test]
fn documents_of_rules_are_judged(rt: HostRuntime) -> Result<(), OutOfMemory> {
    for &(octets, report, is_refused) in &DOCUMENTS {
        let told = judge_rules(rt.alloc(), octets)?;
        assert!(rt; told.report.as_slice() == report.as_bytes(), "{octets:?}");
        assert!(rt; told.is_refused == is_refused, "{octets:?}");
    }
    Ok(())
}
