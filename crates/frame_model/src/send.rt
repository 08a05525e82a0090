//! Sending frames.

ghost use Rattle.std.specs.Prelude.{◌≡◌, ◌≤◌, ◌↔◌, length, IsTrue, OnOk, OnErr};
ghost use Rattle.std.specs.Bool.{OnTrue, OnFalse};
ghost use Rattle.aal5_frames.specs.Frame.{cells_for};
ghost use Rattle.frame_model.specs.Frame.{frame_cells};
ghost use Rattle.frame_model.specs.Sending.{sent_frame};

use aal5_frames::{FEW_CELLS, MOST_CELLS, segment};
use atm_cells::{BLANK_CELL, Cell};
use link_model::{Cause, Notes, Record};
use net_types::{Channel, Mark, OutOfMemory};

/// The most octets of a payload whose frame is short: its trailer takes 8 more.
const SHORT_PAYLOAD: usize = 48 * FEW_CELLS - 8;

/// A set of output queues in one region of slots, each named by a `Place`, to whose ends whole
/// frames are put. This project's own.
pub trait Queues<Place> {
    ghost use Rattle.std.specs.Prelude.{◌≡◌, ◌≤◌, ◌↔◌, ℕ, List, length, IsTrue};
    ghost use Rattle.std.specs.Bool.{OnTrue, OnFalse};
    ghost use Rattle.atm_cells.specs.declared.cell.Cell.{Cell};

    // How many slots are free.
    ghost free: { Self → ℕ };

    // What they become where cells go to the end of the queue of this name.
    ghost with_cells: { Self → Place → List Cell → Self };

    // A queue has this name.
    ghost has_queue: { Self → Place → Type 0 };

    /// Puts the cells at the end of a queue, or none of them. False exactly where fewer slots are
    /// free than cells.
    fn send(&mut self, place: Place, cells: &[Cell]) -> bool
        requires { has_queue self.old place }
        ensures all { IsTrue result ↔ (length cells.now ≤ free self.old) }
        ensures sent { OnTrue result (self.new ≡ with_cells self.old place cells.now) }
        ensures none { OnFalse result (self.new ≡ self.old) };
}

/// Puts the cells of a frame to the end of a queue, or none of them. False exactly where fewer slots
/// are free than cells. They are made in `room`.
fn send_cells<Place: Copy, Q: Queues<Place>>(
    queues: &mut Q,
    place: Place,
    channel: Channel,
    mark: Mark,
    payload: &[u8],
    room: &mut [Cell],
) -> bool
    requires queue { Q.has_queue queues.old place }
    requires payload { (1 ≤ length payload.now) × (length payload.now ≤ 1528) }
    requires room { cells_for (length payload.now) ≤ length room.old }
    ensures all { IsTrue result ↔ (length (frame_cells channel mark payload.now) ≤ Q.free queues.old) }
    ensures sent { OnTrue result (queues.new ≡ Q.with_cells queues.old place (frame_cells channel mark payload.now)) }
    ensures none { OnFalse result (queues.new ≡ queues.old) }
{
    let count = segment(payload, channel, mark, room);
    queues.send(place, &room[..count])
}

/// The same for a frame that may have 32 cells. It isn't inlined, so that short frames don't fill its
/// room.
#[inline(never)]
fn send_long_frame<Place: Copy, Q: Queues<Place>>(
    queues: &mut Q,
    place: Place,
    channel: Channel,
    mark: Mark,
    payload: &[u8],
) -> bool
    requires queue { Q.has_queue queues.old place }
    requires payload { (1 ≤ length payload.now) × (length payload.now ≤ 1528) }
    ensures all { IsTrue result ↔ (length (frame_cells channel mark payload.now) ≤ Q.free queues.old) }
    ensures sent { OnTrue result (queues.new ≡ Q.with_cells queues.old place (frame_cells channel mark payload.now)) }
    ensures none { OnFalse result (queues.new ≡ queues.old) }
{
    let mut room = [BLANK_CELL; MOST_CELLS];
    send_cells(queues, place, channel, mark, payload, &mut room)
}

/// Sends a frame of 1 to 1528 octets: the notes keep its payload under its mark, and its cells go to
/// the end of a queue, all, or none with the entry PoolFull where fewer slots are free.
pub fn send_frame<Place: Copy, Q: Queues<Place>>(
    queues: &mut Q,
    place: Place,
    channel: Channel,
    mark: Mark,
    payload: &[u8],
    notes: &mut Notes,
) -> Result<(), OutOfMemory>
    requires queue { Q.has_queue queues.old place }
    requires payload { (1 ≤ length payload.now) × (length payload.now ≤ 1528) }
    ensures sent { OnOk result (record { queues = queues.new; notes = notes.new } ≡ sent_frame (Q.free queues.old) (Q.with_cells queues.old place) (record { queues = queues.old; notes = notes.old }) channel mark payload.now) }
    ensures err { OnErr result (queues.new ≡ queues.old) }
{
    notes.made(mark, payload)?;
    let is_sent = if payload.len() <= SHORT_PAYLOAD {
        let mut room = [BLANK_CELL; FEW_CELLS];
        send_cells(queues, place, channel, mark, payload, &mut room)
    } else {
        send_long_frame(queues, place, channel, mark, payload)
    };
    if !is_sent {
        notes.push(Record::Loss {
            mark,
            cause: Cause::PoolFull,
        })?;
    }
    Ok(())
}
