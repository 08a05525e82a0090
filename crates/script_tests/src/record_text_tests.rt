//! Lines of records, read and written back.

use crate::states::behind;
use lab_text::Text;
use net_types::OutOfMemory;
use record_text::{read_record, write_record};
use script_text::ReadFault;
use std::alloc::Global;
use std::process::Abort;
use topology::Topology;

/// Four nodes in a row.
const ROW: &str =
    "node n1 10.0.1.1\nnode n2 10.0.2.1\nnode n3 10.0.3.1\nnode n4 10.0.4.1\nlink n1:2 n2:1\nlink n2:2 n3:1\nlink n3:2 n4:1\n";

/// A flow that is cut through in the row, and a line of each other record, in every form of a queue.
const RECORDS: &str = "open n2 1
open n1 2
bind n2 1 32 45001f110a0001010a0003011389138a
bind n3 1 32 45001e110a0001010a0003011389138a
bind n4 1 33 450004000a0001010a000301
join n2 1 32 2 32
deliver n4 40 4500001c000100001d1185cf0a0001010a0003011389138a00080000
drop n1 4294967295 NoRoute
refuse n1 3 ControlProtocol
loss 0.18446744073709551615 PoolFull
chance 12.3
bad n2 ifmp FlowFields
close n4 8
free n2 1 32
part n2 8 1023
forged n1:c
forged n2:0
forged n3:2
routes n4 10
";

/// Two nodes whose labels have a VPI.
const WITH_PATHS: &str = "version 2\nnode n1 10.0.1.1\nnode n2 10.0.2.1\n";

/// Lines of records with such labels.
const RECORDS_WITH_PATHS: &str = "bind n2 1 0/32 45001f110a0001010a0003011389138a
free n2 1 1/1023
join n2 1 0/32 2 15/32
part n2 8 2/40
";

/// Whether a record is read of this line and an LF, and its line is this one.
fn comes_back(alloc: Global, names: &Topology, line: &str) -> Result<bool, OutOfMemory> {
    let whole = format!(in alloc; "{line}\n")?;
    let Some(item) = read_record(alloc, whole.as_bytes(), names)? else {
        return Ok(false);
    };
    let mut text = Text::new(alloc);
    write_record(&item, names, &mut text)?;
    Ok(text.as_slice() == whole.as_bytes())
}

/// Each line of records is written as it was read.
fn assert_come_back(
    rt: &impl Abort,
    alloc: Global,
    names: &Topology,
    records: &str,
) -> Result<(), OutOfMemory> {
    for line in records.lines() {
        assert!(rt; comes_back(alloc, names, line)?, "{line}");
    }
    Ok(())
}

#[test]
fn each_line_is_read_and_written_back(rt: HostRuntime) -> Result<(), ReadFault> {
    for &(topology, records) in &[(ROW, RECORDS), (WITH_PATHS, RECORDS_WITH_PATHS)] {
        let state = behind(rt.alloc(), topology)?;
        assert_come_back(&rt, rt.alloc(), state.topology(), records)?;
    }
    Ok(())
}
