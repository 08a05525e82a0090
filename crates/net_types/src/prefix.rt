//! IPv4 addresses and prefixes (RFC 1812 5.2.4.3, RFC 4632 3.1).

ghost use Rattle.std.specs.Prelude.{◌≡◌, ◌≢◌, ◌-◌, ◌^◌, ◌%◌, ◌<◌, ◌≤◌, ◌↔◌, IfOk};

use std::marker::Model;

/// An IPv4 address (RFC 791 3.1) as the number of its 32 bits, the first octet highest.
#[derive(Clone, Copy, Debug, PartialEq, Eq, Hash)]
pub struct Addr(pub u32);

/// An error of [`Prefix::new`]: why an address and a length in bits make no prefix.
#[derive(Clone, Copy, Debug, PartialEq, Eq)]
pub enum PrefixFault {
    /// The length is above 32 bits.
    TooLong,
    /// A bit of the address past the length is set.
    HostBits,
}

/// An IPv4 prefix (RFC 4632 3.1): the addresses whose first `len` bits, 0 to 32, are those of
/// `addr`, which has no bit set past them.
#[derive(Clone, Copy, Debug, PartialEq, Eq)]
pub struct Prefix {
    addr: Addr,
    len: u8,
}

impl Model for Prefix {
    ghost use Rattle.net_types.specs.Prefix.{Network, IsNetwork};

    ghost Value = { Network };

    ghost view = { λ p. record { addr = p.addr; len = p.len } };

    ghost invariant = { λ p. IsNetwork p.addr.0 p.len };

    ghost inverse = { λ n. record { addr = n.addr; len = n.len } };
}

impl Prefix {
    ghost use Rattle.net_types.specs.Prefix.{covers, IsNetwork};

    /// The prefix of the first `len` bits of `addr`. Refuses `TooLong` and then `HostBits`.
    pub fn new(addr: Addr, len: u8) -> Result<Prefix, PrefixFault>
        ensures ok { IfOk result (λ p. p ≡ record { addr = addr; len = len }) }
        ensures too_long { (result ≡ Err PrefixFault.TooLong) ↔ (32 < len) }
        ensures host_bits { (result ≡ Err PrefixFault.HostBits) ↔ ((len ≤ 32) × (addr.0 % 2 ^ (32 - len) ≢ 0)) }
    {
        if len > 32 {
            return Err(PrefixFault::TooLong);
        }
        if addr.0 as u64 % (1u64 << (32 - len)) != 0 {
            return Err(PrefixFault::HostBits);
        }
        Ok(Prefix { addr, len })
    }

    /// Whether the first `len` bits of `addr` are the prefix's.
    pub fn covers(&self, addr: Addr) -> bool
        ensures { result ≡ covers self.now addr }
    {
        let hosts = 1u64 << (32 - self.len);
        addr.0 as u64 / hosts == self.addr.0 as u64 / hosts
    }

    /// The lowest address of the prefix.
    pub fn addr(&self) -> Addr
        ensures { result ≡ self.now.addr }
    {
        self.addr
    }

    /// The length in bits, 0 to 32.
    pub fn len(&self) -> u8
        ensures len { result ≡ self.now.len }
        ensures network { IsNetwork self.now.addr.0 self.now.len }
    {
        self.len
    }
}
