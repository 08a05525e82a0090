//! The lines of a drill.

ghost use Rattle.std.specs.Prelude.{◌≡◌};
ghost use Rattle.drill_script.specs.Places.{drill_lines};
ghost use Rattle.drill_script.specs.Giving.{Gives};

use crate::cursor::{Cursor, Stage};
use crate::steps::draw;
use lab_text::Text;
use net_types::OutOfMemory;
use std::marker::Model;

/// An iterator over the lines of a generated script (a drill) that weren't given yet. It takes no
/// memory. This project's own.
#[derive(Debug, Drop)]
pub struct DrillLines {
    cursor: Option<Cursor>,
}

impl Model for DrillLines {
    ghost use Rattle.std.specs.Prelude.{List, ℕ, map};
    ghost use Rattle.lab_text.specs.Text.{line_of};
    ghost use Rattle.drill_script.specs.Places.{lines_from};

    ghost Value = { List (List ℕ) };

    ghost view = { λ l. map line_of (lines_from l.cursor) };
}

impl DrillLines {
    /// All lines of the drill with this number.
    pub fn new(drill: u32) -> DrillLines
        ensures { result ≡ drill_lines drill }
    {
        let cursor = Cursor {
            nodes: 4 + (drill % 5) as u8,
            drawn: draw(drill),
            stage: Stage::Node(1),
        };
        DrillLines {
            cursor: Some(cursor),
        }
    }

    /// Appends the next line to `line`, with its end; false exactly where all lines were given, memory or
    /// not. Where memory is wanting the same line comes next, and a part of it may stand in `line`.
    pub fn next(&mut self, line: &mut Text) -> Result<bool, OutOfMemory>
        ensures { Gives self.old self.new line.old line.new result }
    {
        let Some(cursor) = self.cursor else {
            return Ok(false);
        };
        cursor.write(line)?;
        self.cursor = cursor.next();
        Ok(true)
    }
}
