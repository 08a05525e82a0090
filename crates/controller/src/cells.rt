//! *Cells* and *Frames* (I.363.5 9.2): a cell goes to the reassembly of its channel, and a whole frame
//! acts.

ghost use Rattle.std.specs.Prelude.{◌≡◌, ◌≤◌, ◌<◌, ◌^◌, length, OnOk};
ghost use Rattle.net_types.specs.Number.{HasNumbersLeft};
ghost use Rattle.world_model.specs.Cells.{Taker as TakerValue, cell_comes, frame_holds};
ghost use Rattle.controller_router.specs.Cells.{channel_of};
ghost use Rattle.controller_joining.specs.Joining.{AreJoined, acted, controller_of};
ghost use Rattle.controller.specs.Frames.{CanAct, IsActing, MayCome};
ghost use Rattle.controller.specs.Right.{IsRight};

use crate::packets::{hear_switch, take_default, take_labelled};
use atm_cells::Cell;
use controller_joining::JoiningRouter;
use controller_link::Taker;
use controller_router::PortEngine;
use link_model::{Cause, Notes, Record};
use net_types::{Mark, Numbers, OutOfMemory};

/// A frame that passed its test acts, by the channel on which it came.
fn take_frame<E: PortEngine>(
    router: &mut JoiningRouter<E>,
    taker: Taker,
    mark: Mark,
    payload: &[u8],
    numbers: &mut Numbers,
    notes: &mut Notes,
) -> Result<(), OutOfMemory>
    requires may { MayCome E.seen router.old notes.old numbers.old mark }
    requires can { CanAct (acted E.seen router.old notes.old numbers.old) taker mark payload.now }
    ensures acted { (t : TakerValue) → channel_of t ≡ taker → IsActing (controller_of E.seen router.old) t → OnOk result (acted E.seen router.new notes.new numbers.new ≡ frame_holds (acted E.seen router.old notes.old numbers.old) t mark payload.now) }
    ensures joined { OnOk result (AreJoined E.seen router.new) }
{
    match taker {
        Taker::Gsmp => hear_switch(router, payload, numbers, notes),
        Taker::Default(port) => take_default(router, port, mark, payload, numbers, notes),
        Taker::Label(port, number) => {
            take_labelled(router, port, number, mark, payload, numbers, notes)
        }
    }
}

/// Takes a cell that comes from the switch. `frame` is where a frame is put together.
pub(crate) fn take_cell<E: PortEngine>(
    router: &mut JoiningRouter<E>,
    cell: &Cell,
    frame: &mut [u8],
    numbers: &mut Numbers,
    notes: &mut Notes,
) -> Result<(), OutOfMemory>
    requires right { IsRight E.seen router.old }
    requires mark { cell.now.mark.frame < 2 ^ 63 }
    requires room { 1536 ≤ length frame.old }
    requires numbers { HasNumbersLeft numbers.old }
    ensures acted { OnOk result (acted E.seen router.new notes.new numbers.new ≡ cell_comes (acted E.seen router.old notes.old numbers.old) cell.now) }
    ensures joined { OnOk result (AreJoined E.seen router.new) }
{
    let Some(taker) = router.router().taker_of(cell.header.channel) else {
        return notes.push(Record::Loss {
            mark: cell.mark,
            cause: Cause::Unbound,
        });
    };
    match router.receive(taker, cell, notes, frame)? {
        Some(len) => take_frame(router, taker, cell.mark, &frame[..len], numbers, notes),
        None => Ok(()),
    }
}
