//! The simulation relation of a queue of cells and a machine: what the queue shows of it, each cell by its channel and
//! by the payload that was cut into cells under its mark.
//!
//! `specs/Seen` has the relation of cells and words, for words of any kind; `specs/Label` says what a
//! cell of a link is to the machine of a label. The lemmas say what more cells, more frames, a whole frame
//! and the first cell of a queue are. There is no code that runs.
#![tactic(auto)]

ghost use Rattle.std.specs.Prelude.{◌≡◌, ◌≢◌, ◌∷◌, ◌++◌, [], List, Bool, true, false, replicate, ℕ};
ghost use Rattle.world_model.specs.Words.{Channel, Mark, label_channel_of, Cell, Frame, payload_of, frame_cells, default_channel};
ghost use Rattle.law_port_views.specs.law_label_line.Cells as lines;
ghost use Rattle.law_port_views.specs.law_label_line.Cells.{Role};
ghost use Rattle.law_port_views.specs.Link.{LinkLabel};
ghost use Rattle.law_shown_cells.specs.Seen.{Nothing, Word, Extends};
ghost use Rattle.law_shown_cells.specs.Label.{Where, channel_at, seen_payload, ShowsCells};

/// What cells show stays while frames are made; and a whole frame shows nothing on another channel or
/// where its payload says nothing, and else a word for each of its cells. It does nothing, and its
/// contract is the statement.
pub fn frames_are_shown()
    ensures growth { (place : Where) (by : Role) (link : LinkLabel) (old new : List Frame) (cells : List Cell) (words : List lines.Cell)
        → Extends old new → ShowsCells place by link old cells words → ShowsCells place by link new cells words }
    ensures message { (place : Where) (by : Role) (link : LinkLabel) (frames : List Frame) (mark : Mark) (payload : List ℕ) (message : lines.Message)
        → ((last : Bool) → seen_payload by link last (payload_of frames mark) ≡ Word (lines.Default last message))
        → (n : ℕ) × ShowsCells place by link frames (frame_cells (channel_at place default_channel) mark payload)
        (replicate n (lines.Default false message) ++ lines.Default true message ∷ []) }
    ensures quiet { (place : Where) (by : Role) (link : LinkLabel) (frames : List Frame) (mark : Mark) (payload : List ℕ)
        → ((last : Bool) → seen_payload by link last (payload_of frames mark) ≡ Nothing)
        → ShowsCells place by link frames (frame_cells (channel_at place default_channel) mark payload) [] }
    ensures elsewhere { (place : Where) (by : Role) (link : LinkLabel) (frames : List Frame) (channel : Channel) (mark : Mark) (payload : List ℕ)
        → channel ≢ channel_at place default_channel → channel ≢ channel_at place (label_channel_of link.label)
        → ShowsCells place by link frames (frame_cells channel mark payload) [] }
{}
