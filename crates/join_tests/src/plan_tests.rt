//! Which flows are led straight on, and to where.

use crate::grants::{PORT, by_controller, idle, routed};
use cut_through::{Join, plan};
use ipv4_forward::{Next, Table};
use ipv4_packet::FlowId;
use net_types::{Addr, Channel, End, PortNo};
use std::test::Fail;

/// Label 32 of port 1, and label 33 of port 2, on which flows come.
const INPUT: End = End {
    port: PortNo(1),
    channel: Channel { vpi: 0, vci: 32 },
};

const BESIDE: End = End {
    port: PORT,
    channel: Channel { vpi: 0, vci: 33 },
};

/// Label 40 of port 2, and label 1056, that of VPI 1 and VCI 32.
const OUTPUT: End = End {
    port: PORT,
    channel: Channel { vpi: 0, vci: 40 },
};

const OUTPUT_OF_PATH: End = End {
    port: PORT,
    channel: Channel { vpi: 1, vci: 32 },
};

/// The flow of type 1 from 10.0.1.1 to 10.0.3.1 with this Time To Live.
fn connection(ttl: u8) -> FlowId {
    FlowId::One {
        tos: 0,
        ttl,
        protocol: 17,
        source: Addr(0x0a00_0101),
        destination: Addr(0x0a00_0301),
        source_port: 5001,
        destination_port: 5002,
    }
}

/// The flow of type 2 between the two hosts.
fn hosts(ttl: u8) -> FlowId {
    FlowId::Two {
        ttl,
        source: Addr(0x0a00_0101),
        destination: Addr(0x0a00_0301),
    }
}

/// An input of any port is joined to the grant of the flow that has one hop less to live, and to no
/// other.
#[test]
fn a_flow_is_joined_one_hop_further(rt: HostRuntime) -> Result<(), Fail> {
    let routes = routed(&rt, rt.alloc(), Next::Via(PORT))?;
    let grants = by_controller(&rt, rt.alloc(), 40, connection(3))?;
    for input in [INPUT, BESIDE] {
        let join = Join {
            input,
            output: OUTPUT,
        };
        assert_eq!(rt;
            plan(input, &connection(4), &routes, PORT, &grants),
            Some(join)
        );
    }
    for ttl in [0, 1, 2, 3, 5, 255] {
        assert_eq!(rt;
            plan(INPUT, &connection(ttl), &routes, PORT, &grants),
            None,
            "at {ttl}"
        );
    }
    grants.abandon();
    Ok(())
}

/// A flow that has no hop further is joined to none, not even to a grant of Time To Live 0.
#[test]
fn the_last_hop_is_not_joined(rt: HostRuntime) -> Result<(), Fail> {
    let routes = routed(&rt, rt.alloc(), Next::Via(PORT))?;
    let grants = by_controller(&rt, rt.alloc(), 40, connection(0))?;
    for ttl in [0, 1] {
        assert_eq!(rt;
            plan(INPUT, &connection(ttl), &routes, PORT, &grants),
            None,
            "at {ttl}"
        );
    }
    grants.abandon();
    Ok(())
}

/// A flow of type 1 isn't joined to a grant of the flow of type 2 between its hosts. That flow is, here
/// to a label of another path.
#[test]
fn a_flow_is_joined_to_its_own_type(rt: HostRuntime) -> Result<(), Fail> {
    let routes = routed(&rt, rt.alloc(), Next::Via(PORT))?;
    let grants = by_controller(&rt, rt.alloc(), 1056, hosts(3))?;
    let join = Join {
        input: INPUT,
        output: OUTPUT_OF_PATH,
    };
    assert_eq!(rt; plan(INPUT, &connection(4), &routes, PORT, &grants), None);
    assert_eq!(rt; plan(INPUT, &hosts(4), &routes, PORT, &grants), Some(join));
    grants.abandon();
    Ok(())
}

/// A flow is joined to no grant whose branch isn't made.
#[test]
fn an_idle_grant_is_not_joined_to(rt: HostRuntime) -> Result<(), Fail> {
    let routes = routed(&rt, rt.alloc(), Next::Via(PORT))?;
    let grants = idle(&rt, rt.alloc(), 40, connection(3))?;
    assert_eq!(rt; plan(INPUT, &connection(4), &routes, PORT, &grants), None);
    grants.abandon();
    Ok(())
}

/// A flow isn't joined where its packets go elsewhere: to this node, by another port, or by no route.
#[test]
fn a_flow_is_joined_by_its_route_alone(rt: HostRuntime) -> Result<(), Fail> {
    let local = routed(&rt, rt.alloc(), Next::Local)?;
    let elsewhere = routed(&rt, rt.alloc(), Next::Via(PortNo(3)))?;
    let none = Table::open(rt.alloc())?;
    let grants = by_controller(&rt, rt.alloc(), 40, connection(3))?;
    for routes in [&local, &elsewhere, &none] {
        assert_eq!(rt; plan(INPUT, &connection(4), routes, PORT, &grants), None);
    }
    grants.abandon();
    Ok(())
}
