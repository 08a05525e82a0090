//! What the counts of a script may come to.

ghost use Rattle.std.specs.Prelude.{◌≡◌, ◌+◌, ◌≤◌, ◌*◌, length};
ghost use Rattle.script_model.specs.State.{rounds_of, ticks_of_event};
ghost use Rattle.script_text.specs.Counts.{at_most};

use script_model::Line;
use world_model::Event;

/// The most event lines of a script.
pub const EVENT_LINES: u32 = 200_000;

/// The most ticks of all its lines.
pub const TICKS: u32 = 2_000_000;

/// Where the counts of octets and lines stay.
const LAST: u32 = 4_294_967_295;

/// So many and so many more; 4,294,967,295 where it would be more.
pub fn counted(count: u32, more: usize) -> u32
    ensures { result ≡ at_most 4294967295 (count + more) }
{
    if more < (LAST - count) as usize {
        count + more as u32
    } else {
        LAST
    }
}

/// The rounds of a line.
pub fn rounds_of(line: &Line) -> u32
    ensures { result ≡ rounds_of line.now }
{
    match line {
        Line::Run(rounds) => *rounds,
        Line::Blank | Line::Topology(_) | Line::Event(_) | Line::TickAll => 0,
    }
}

/// The ticks of an event.
pub fn ticks_of_event(event: &Event) -> u32
    ensures ticks { result ≡ ticks_of_event event.now }
    ensures few { result ≤ 1 }
{
    match event {
        Event::Tick(_) | Event::TickSwitch(_) => 1,
        Event::Inject { .. }
        | Event::Carry(_)
        | Event::Lose(_)
        | Event::Restart(_)
        | Event::RestartSwitch(_)
        | Event::Forge { .. }
        | Event::Route { .. } => 0,
    }
}
