//! Scripts and what routing alone makes of their packets.

use ideal_fates::ideal;
use net_types::OutOfMemory;

/// Each packet goes by the routes as they are set at its line: to c by b, only to b, and then no
/// further; one that has no more to live, and one of the protocol of control messages, don't leave a.
const SCRIPT: &str =
    "node a 10.0.1.1\nnode b 10.0.2.1\nnode c 10.0.3.1\nlink a:2 b:1\nlink b:2 c:1\nroute a 10.0.3.0/24 via 2\nroute b 10.0.3.0/24 via 2\nroute c 10.0.3.0/24 local\ntick *\nrun 200\nsend a 4500001c0001000004119ecf0a0001010a0003011389138a00080000\nsetroute b 10.0.3.0/24 local\nsend a 4500001c0001000004119ecf0a0001010a0003011389138a00080000\nlose a:c\nunroute b 10.0.3.0/24\nsend a 4500001c0001000004119ecf0a0001010a0003011389138a00080000\nsend a 4500001c000100000111a1cf0a0001010a0003011389138a00080000\nsend a 4500001c0001000004659e7b0a0001010a0003011389138a00080000\nrestart b\n";

const REPORT: &str =
    "deliver c 1 4500001c000100000211a0cf0a0001010a0003011389138a00080000\ndeliver b 2 4500001c0001000003119fcf0a0001010a0003011389138a00080000\ndrop b 3 NoRoute\ndrop a 4 Expired\nrefuse a 5 ControlProtocol\nend sent 5 delivered 2 dropped 2 refused 1\n";

/// The lines before a refused one have had their effect.
const REFUSED_SCRIPT: &str =
    "node a 10.0.1.1\nroute a 10.0.0.0/8 local\nsend a 4500001c0001000004119ecf0a0001010a0003011389138a00080000\ntick a\ncarry a:c\nlose a:0\ncarry a:0\nrun 1\ntick z\n";

const REFUSED_REPORT: &str =
    "deliver a 1 4500001c0001000004119ecf0a0001010a0003011389138a00080000\nrefused 9 UnknownName\n";

#[test]
fn packets_go_by_the_routes_at_their_lines(rt: HostRuntime) -> Result<(), OutOfMemory> {
    for (script, report, is_refused) in [
        (SCRIPT, REPORT, false),
        (REFUSED_SCRIPT, REFUSED_REPORT, true),
    ] {
        let reported = ideal(rt.alloc(), script.as_bytes())?;
        assert_eq!(rt; reported.report.as_slice(), report.as_bytes());
        assert_eq!(rt; reported.is_refused, is_refused);
    }
    Ok(())
}
