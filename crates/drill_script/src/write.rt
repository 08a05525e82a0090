//! The line at a cursor.

ghost use Rattle.std.specs.Prelude.{◌≡◌, ◌++◌, codes, decimal, OnOk};
ghost use Rattle.lab_text.specs.Text.{line_of};
ghost use Rattle.script_model.specs.Drill.{node_line, link_line, route_line, direction};
ghost use Rattle.drill_script.specs.Places.{send_words, words_of};

use crate::cursor::{Cursor, Stage};
use crate::packet::write_packet;
use lab_text::Text;
use net_types::OutOfMemory;

fn write_node(line: &mut Text, node: u8) -> Result<(), OutOfMemory>
    ensures { OnOk result (line.new ≡ line.old ++ line_of (node_line node)) }
{
    line.text("node n")?;
    line.number(node as u64)?;
    line.text(" 10.0.")?;
    line.number(node as u64)?;
    line.text(".1\n")
}

fn write_link(line: &mut Text, node: u8) -> Result<(), OutOfMemory>
    ensures { OnOk result (line.new ≡ line.old ++ line_of (link_line node)) }
{
    line.text("link n")?;
    line.number(node as u64)?;
    line.text(":2 n")?;
    line.number(node as u64 + 1)?;
    line.text(":1\n")
}

/// Where the packets to a node go at another one: as they stand behind a space, with the line's end.
fn direction(node: u8, towards: u8) -> &'static str
    ensures { result.now ≡ codes " " ++ line_of (direction node towards) }
{
    if node == towards {
        " local\n"
    } else if node < towards {
        " via 2\n"
    } else {
        " via 1\n"
    }
}

fn write_route(line: &mut Text, node: u8, towards: u8) -> Result<(), OutOfMemory>
    ensures { OnOk result (line.new ≡ line.old ++ line_of (route_line node towards)) }
{
    line.text("route n")?;
    line.number(node as u64)?;
    line.text(" 10.0.")?;
    line.number(towards as u64)?;
    line.text(".0/24")?;
    line.text(direction(node, towards))
}

/// Appends what stands before the octets of a packet.
#[tactic(auto, using(crate::proofs::Numerals::one))]
fn write_sender(line: &mut Text) -> Result<(), OutOfMemory>
    ensures { OnOk result (line.new ≡ line.old ++ (codes "send n" ++ (decimal 1 ++ codes " "))) }
{
    line.text("send n1 ")
}

fn write_send(line: &mut Text, nodes: u8, number: u16, drawn: u32) -> Result<(), OutOfMemory>
    ensures { OnOk result (line.new ≡ line.old ++ line_of (send_words nodes number drawn)) }
{
    write_sender(line)?;
    write_packet(line, nodes, number, drawn)?;
    line.text("\n")
}

impl Cursor {
    /// Appends the line at this cursor, with its end.
    #[tactic(auto, using(crate::proofs::Numerals::one, crate::proofs::Numerals::two, crate::proofs::Numerals::three, crate::proofs::Numerals::twenty, crate::proofs::Numerals::sixty, crate::proofs::Numerals::two_hundred, crate::proofs::Numerals::thousand))]
    pub fn write(self, line: &mut Text) -> Result<(), OutOfMemory>
        ensures { OnOk result (line.new ≡ line.old ++ line_of (words_of self.nodes self.drawn self.stage)) }
    {
        match self.stage {
            Stage::Node(node) => write_node(line, node),
            Stage::Link(node) => write_link(line, node),
            Stage::Route { node, towards } => write_route(line, node, towards),
            Stage::Send(number) => write_send(line, self.nodes, number, self.drawn),
            Stage::OpeningTick(_) | Stage::Tick(_) | Stage::ClosingTick => line.text("tick *\n"),
            Stage::OpeningRun(_) => line.text("run 200\n"),
            Stage::Run(_) => line.text("run 20\n"),
            Stage::LongRun(_) => line.text("run 60\n"),
            Stage::ClosingRun => line.text("run 1000\n"),
            Stage::Lose(_) => line.text("lose n1:c\n"),
            Stage::Restart(_) => line.text("restart n2\n"),
            Stage::RestartSwitch(_) => line.text("restartswitch n3\n"),
        }
    }
}
