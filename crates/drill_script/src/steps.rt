//! From a line to the next one.

ghost use Rattle.std.specs.Prelude.{◌≡◌, ◌+◌, ◌-◌, ◌++◌, ◌∷◌};
ghost use Rattle.script_model.specs.Drill.{draw, behind};
ghost use Rattle.drill_script.specs.Places.{send_words, others, ticks, restarts, switch_restarts, from_ticks, from_routes, from_cursor, lines_from, behind_it};

use crate::cursor::{Cursor, Stage};

/// How many packets a drill sends.
const PACKETS: u16 = 400;

/// The number drawn behind this one.
pub fn draw(number: u32) -> u32
    ensures { result ≡ draw number }
{
    ((1_103_515_245 * number as u64 + 12_345) % 2_147_483_648) as u32
}

impl Cursor {
    /// The same cursor, at another line for which no number is drawn.
    fn to(self, stage: Stage) -> Cursor
        ensures { result ≡ record self { stage = stage } }
    {
        Cursor {
            nodes: self.nodes,
            drawn: self.drawn,
            stage,
        }
    }

    /// At a packet, for which a number is drawn.
    fn to_packet(self, number: u16) -> Cursor
        ensures { from_cursor result ≡ send_words self.nodes number (draw self.drawn) ∷ (behind number ++ others self.nodes (draw self.drawn) number) }
    {
        Cursor {
            nodes: self.nodes,
            drawn: draw(self.drawn),
            stage: Stage::Send(number),
        }
    }

    /// Behind all that belongs to a packet.
    #[tactic(auto, using(crate::proofs::Following::others_more, crate::proofs::Following::others_last))]
    fn after_packet(self, number: u16) -> Cursor
        ensures { from_cursor result ≡ others self.nodes self.drawn number }
    {
        if number < PACKETS {
            return self.to_packet(number + 1);
        }
        self.to(Stage::ClosingTick)
    }

    /// Behind the restart of a controller.
    fn after_restart(self, number: u16) -> Cursor
        ensures { from_cursor result ≡ switch_restarts number ++ others self.nodes self.drawn number }
    {
        if number == 300 {
            self.to(Stage::RestartSwitch(number))
        } else {
            self.after_packet(number)
        }
    }

    /// Behind a packet's rounds and ticks.
    fn after_ticks(self, number: u16) -> Cursor
        ensures { from_cursor result ≡ restarts number ++ others self.nodes self.drawn number }
    {
        if number == 200 {
            self.to(Stage::Restart(number))
        } else {
            self.after_restart(number)
        }
    }

    /// Behind a packet's first rounds.
    fn after_run(self, number: u16) -> Cursor
        ensures { from_cursor result ≡ ticks number ++ others self.nodes self.drawn number }
    {
        if number % 10 == 0 {
            self.to(Stage::Tick(number))
        } else {
            self.after_ticks(number)
        }
    }

    /// Behind a packet.
    fn after_send(self, number: u16) -> Cursor
        ensures { from_cursor result ≡ behind number ++ others self.nodes self.drawn number }
    {
        if number % 16 == 0 {
            self.to(Stage::Lose(number))
        } else {
            self.to(Stage::Run(number))
        }
    }

    /// Behind the rounds before the first packet.
    fn after_opening(self, more: u8) -> Cursor
        ensures { from_cursor result ≡ from_ticks self.nodes self.drawn more }
    {
        if 0 < more {
            self.to(Stage::OpeningTick(more - 1))
        } else {
            self.to(Stage::Send(1))
        }
    }

    /// Behind the routes of a node.
    #[tactic(auto, using(crate::proofs::Following::routes_more))]
    fn after_routes(self, node: u8) -> Cursor
        ensures { from_cursor result ≡ from_routes self.nodes self.drawn (node + 1) (self.nodes - node) }
    {
        if node < self.nodes {
            self.to(Stage::Route {
                node: node + 1,
                towards: 1,
            })
        } else {
            self.after_opening(3)
        }
    }

    fn after_route(self, node: u8, towards: u8) -> Cursor
        ensures { from_cursor result ≡ behind_it self.nodes self.drawn (Stage.Route node towards) }
    {
        if towards < self.nodes {
            self.to(Stage::Route {
                node,
                towards: towards + 1,
            })
        } else {
            self.after_routes(node)
        }
    }

    fn after_link(self, node: u8) -> Cursor
        ensures { from_cursor result ≡ behind_it self.nodes self.drawn (Stage.Link node) }
    {
        if node < self.nodes - 1 {
            self.to(Stage::Link(node + 1))
        } else {
            self.after_routes(0)
        }
    }

    fn after_node(self, node: u8) -> Cursor
        ensures { from_cursor result ≡ behind_it self.nodes self.drawn (Stage.Node node) }
    {
        if node < self.nodes {
            self.to(Stage::Node(node + 1))
        } else {
            self.to(Stage::Link(1))
        }
    }

    /// The cursor at the next line; `None` behind the last one.
    pub fn next(self) -> Option<Cursor>
        ensures { lines_from result ≡ behind_it self.nodes self.drawn self.stage }
    {
        match self.stage {
            Stage::Node(node) => Some(self.after_node(node)),
            Stage::Link(node) => Some(self.after_link(node)),
            Stage::Route { node, towards } => Some(self.after_route(node, towards)),
            Stage::OpeningTick(more) => Some(self.to(Stage::OpeningRun(more))),
            Stage::OpeningRun(more) => Some(self.after_opening(more)),
            Stage::Send(number) => Some(self.after_send(number)),
            Stage::Lose(number) => Some(self.to(Stage::Run(number))),
            Stage::Run(number) => Some(self.after_run(number)),
            Stage::Tick(number) => Some(self.to(Stage::LongRun(number))),
            Stage::LongRun(number) => Some(self.after_ticks(number)),
            Stage::Restart(number) => Some(self.after_restart(number)),
            Stage::RestartSwitch(number) => Some(self.after_packet(number)),
            Stage::ClosingTick => Some(self.to(Stage::ClosingRun)),
            Stage::ClosingRun => None,
        }
    }
}
