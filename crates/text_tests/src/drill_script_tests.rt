//! Lines of drills, as another program makes them.

use drill_script::*;
use lab_text::Text;
use net_types::OutOfMemory;
use std::alloc::Global;

/// The line at `place`, from 0, of the first drill; empty behind the last one.
fn line_at(alloc: Global, place: u32) -> Result<Text, OutOfMemory> {
    let mut lines = DrillLines::new(1);
    for _ in 0..place {
        let mut skipped = Text::new(alloc);
        lines.next(&mut skipped)?;
    }
    let mut line = Text::new(alloc);
    lines.next(&mut line)?;
    Ok(line)
}

/// Lines of the first drill, by their indices.
const LINES: [(u32, &str); 20] = [
    (0, "node n1 10.0.1.1\n"),
    (4, "node n5 10.0.5.1\n"),
    (5, "link n1:2 n2:1\n"),
    (8, "link n4:2 n5:1\n"),
    (9, "route n1 10.0.1.0/24 local\n"),
    (13, "route n1 10.0.5.0/24 via 2\n"),
    (14, "route n2 10.0.1.0/24 via 1\n"),
    (33, "route n5 10.0.5.0/24 local\n"),
    (34, "tick *\n"),
    (39, "run 200\n"),
    (
        40,
        "send n1 4500004600010000201180a50a0001010a0005010fa3000900320000000000000000000000000000000000000000000000000000000000000000000000000000000000000000\n",
    ),
    (41, "run 20\n"),
    (
        42,
        "send n1 4500002a00020000201180c00a0001010a0005010fa00009001600000000000000000000000000000000\n",
    ),
    (73, "lose n1:c\n"),
    (490, "tick *\n"),
    (491, "run 60\n"),
    (492, "restart n2\n"),
    (719, "restartswitch n3\n"),
    (948, "run 1000\n"),
    (949, ""),
];

#[test]
fn lines_of_a_drill(rt: HostRuntime) -> Result<(), OutOfMemory> {
    for &(place, text) in &LINES {
        let line = line_at(rt.alloc(), place)?;
        assert!(rt; line.as_slice() == text.as_bytes(), "{place}");
    }
    Ok(())
}

fn is_event(line: &[u8]) -> bool {
    !line.starts_with(b"node ") && !line.starts_with(b"link ") && !line.starts_with(b"route ")
}

/// How many lines a drill has in all, and how many of these are events.
fn counts(alloc: Global, drill: u32) -> Result<(u32, u32), OutOfMemory> {
    let mut lines = DrillLines::new(drill);
    let mut events: u32 = 0;
    for count in 0..2000 {
        let mut line = Text::new(alloc);
        if !lines.next(&mut line)? {
            return Ok((count, events));
        }
        events = events.saturating_add(is_event(line.as_slice()) as u32);
    }
    Ok((2000, events))
}

/// Drills, and how many lines they have in all.
const COUNTS: [(u32, u32); 5] = [(1, 949), (2, 962), (3, 977), (4, 994), (5, 938)];

#[test]
fn drills_have_as_many_events(rt: HostRuntime) -> Result<(), OutOfMemory> {
    for &(drill, count) in &COUNTS {
        assert_eq!(rt; counts(rt.alloc(), drill)?, (count, 915), "{drill}");
    }
    Ok(())
}
