//! What a port makes of the labels that it is offered.

use crate::values::HOSTS;
use grant_table::{AcceptFault, Accepted, GrantTable};
use ipv4_packet::FlowId;
use net_types::Addr;
use std::process::Abort;
use std::test::Fail;

/// A flow of type 1 between the two hosts.
const CONNECTION: FlowId = FlowId::One {
    tos: 0,
    ttl: 4,
    protocol: 17,
    source: Addr(0x0a00_0101),
    destination: Addr(0x0a00_0301),
    source_port: 5001,
    destination_port: 5002,
};

/// Each label with what a REDIRECT of it is answered, in a table of labels 900 to 1100 (VPI 0 up to
/// VCI 1023, and VPI 1 from VCI 32 on).
const ANSWERS: [(u16, FlowId, Result<Accepted, AcceptFault>); 7] = [
    (900, CONNECTION, Ok(Accepted::New)),
    (900, CONNECTION, Ok(Accepted::Refreshed)),
    (900, HOSTS, Err(AcceptFault::Taken)),
    (899, HOSTS, Err(AcceptFault::OutOfRange)),
    (1101, HOSTS, Err(AcceptFault::OutOfRange)),
    (1030, HOSTS, Err(AcceptFault::OutOfRange)),
    (1056, HOSTS, Ok(Accepted::New)),
];

/// The REDIRECTs come.
fn answer(rt: &impl Abort, table: &mut GrantTable) {
    for &(label, flow, answer) in &ANSWERS {
        assert_eq!(rt; table.accept(label, flow, 60), answer, "at {label}");
    }
}

#[test]
fn redirects_are_answered_by_cause(rt: HostRuntime) -> Result<(), Fail> {
    let mut table = GrantTable::open(rt.alloc(), 900, 1100)?;
    answer(&rt, &mut table);
    table.abandon();
    Ok(())
}
