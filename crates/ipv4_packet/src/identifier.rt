//! The octets that identify a flow in a message. The layout is this project's own, after RFC 1953.
//!
//! | Type 1, octets | Content | Type 2, octets | Content |
//! |---|---|---|---|
//! | 0 | 45 (hexadecimal) | 0 | 45 |
//! | 1 | Type of Service | 1 | 0 |
//! | 2 | Time To Live | 2 | Time To Live |
//! | 3 | Protocol | 3 | 0 |
//! | 4 to 7 | Source Address | 4 to 7 | Source Address |
//! | 8 to 11 | Destination Address | 8 to 11 | Destination Address |
//! | 12 to 13 | Source port | | |
//! | 14 to 15 | Destination port | | |

ghost use Rattle.std.specs.Prelude.{◌≡◌, ◌↔◌, ◌≤◌, ◌++◌, length, drop, Ok, IfOk};
ghost use Rattle.std.specs.Result.{result_err};
ghost use Rattle.ipv4_packet.specs.Identifier.{identifier, Identifies, first_fault};

use crate::flow::{FlowId, FlowKind, has_ports};
use net_types::Addr;
use octet_fields::{put_octets, put_u16, put_u32, u16_at, u32_at};
use thiserror::Error;

/// An error of reading a flow identifier: the first test that octets fail which identify no flow.
/// The tests are this project's own.
#[derive(Clone, Copy, Debug, PartialEq, Eq, Error)]
pub enum FlowFault {
    /// Not 16 octets for type 1, or 12 for type 2.
    #[error("another length than the flow type has")]
    Size,
    /// Octet 1 or 3 of type 2 isn't 0.
    #[error("a zero octet isn't 0")]
    Reserved,
    /// Octet 0 isn't 45 (hexadecimal), Time To Live is 0, or the protocol of type 1 isn't 6 or 17.
    #[error("no packet is of this flow")]
    Fields,
}

/// Writes the flow's identifier to the front of `out` and gives its length in octets: 16 for type
/// 1, 12 for type 2.
pub fn write_identifier(flow: &FlowId, out: &mut [u8]) -> usize
    requires { length (identifier flow.now) ≤ length out.old }
    ensures written { out.new ≡ identifier flow.now ++ drop result out.old }
    ensures len { result ≡ length (identifier flow.now) }
{
    match *flow {
        FlowId::One {
            tos,
            ttl,
            protocol,
            source,
            destination,
            source_port,
            destination_port,
        } => {
            put_octets(out, 0, &[0x45, tos, ttl, protocol]);
            put_u32(out, 4, source.0);
            put_u32(out, 8, destination.0);
            put_u16(out, 12, source_port);
            put_u16(out, 14, destination_port);
            16
        }
        FlowId::Two {
            ttl,
            source,
            destination,
        } => {
            put_octets(out, 0, &[0x45, 0, ttl, 0]);
            put_u32(out, 4, source.0);
            put_u32(out, 8, destination.0);
            12
        }
    }
}

/// The flow of this kind that the octets identify. Refuses, by the first test that fails: `Size`,
/// `Reserved`, `Fields`.
pub fn read_identifier(kind: FlowKind, octets: &[u8]) -> Result<FlowId, FlowFault>
    ensures ok { (flow : FlowId) → (result ≡ Ok flow) ↔ Identifies kind octets.now flow }
    ensures fault { result_err result ≡ first_fault kind octets.now }
{
    match kind {
        FlowKind::One => read_connection(octets),
        FlowKind::Two => read_hosts(octets),
    }
}

/// Reads an identifier of type 1.
fn read_connection(octets: &[u8]) -> Result<FlowId, FlowFault>
    ensures found { IfOk result (λ flow. Identifies FlowKind.One octets.now flow) }
    ensures fault { result_err result ≡ first_fault FlowKind.One octets.now }
{
    if octets.len() != 16 {
        return Err(FlowFault::Size);
    }
    if octets[0] != 0x45 || octets[2] == 0 || !has_ports(octets[3]) {
        return Err(FlowFault::Fields);
    }
    Ok(FlowId::One {
        tos: octets[1],
        ttl: octets[2],
        protocol: octets[3],
        source: Addr(u32_at(octets, 4)),
        destination: Addr(u32_at(octets, 8)),
        source_port: u16_at(octets, 12),
        destination_port: u16_at(octets, 14),
    })
}

/// Reads an identifier of type 2.
fn read_hosts(octets: &[u8]) -> Result<FlowId, FlowFault>
    ensures found { IfOk result (λ flow. Identifies FlowKind.Two octets.now flow) }
    ensures fault { result_err result ≡ first_fault FlowKind.Two octets.now }
{
    if octets.len() != 12 {
        return Err(FlowFault::Size);
    }
    if octets[1] != 0 || octets[3] != 0 {
        return Err(FlowFault::Reserved);
    }
    if octets[0] != 0x45 || octets[2] == 0 {
        return Err(FlowFault::Fields);
    }
    Ok(FlowId::Two {
        ttl: octets[2],
        source: Addr(u32_at(octets, 4)),
        destination: Addr(u32_at(octets, 8)),
    })
}
