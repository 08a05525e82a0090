//! The rows of a classifier.

ghost use Rattle.std.specs.Prelude.{◌≡◌, map};
ghost use Rattle.lru.specs.LruCache.{lru_cache};
ghost use Rattle.flow_classifier.specs.Rows.{begun_anew, last_turned};

use crate::tally::Tally;
use ipv4_packet::FlowId;
use lru::LruCache;

/// Flows with their packets, the one that was counted last first.
pub(crate) type Rows = LruCache<FlowId, Tally>;

/// Brings the last row up to date, of which ticks are counted from zero again, and puts it first.
fn turn_last(rows: &mut Rows, ticks: u32)
    ensures { rows.new ≡ lru_cache (last_turned ticks rows.old.entries) rows.old.cap }
{
    // each flow is there once
    let _len = rows.len();
    let flow = match rows.peek_lru() {
        Some((flow, _tally)) => *flow,
        None => return,
    };
    if let Some(tally) = rows.get_mut(&flow) {
        tally.bring_up(ticks);
        tally.until = 0;
    }
}

/// Brings each row up to date, after which ticks are counted from zero again. Each is put first once,
/// so that they stand as they stood.
pub(crate) fn begin_anew(rows: &mut Rows, ticks: u32)
    ensures { rows.new ≡ lru_cache (map (begun_anew ticks) rows.old.entries) rows.old.cap }
{
    for _row in 0..rows.len() {
        turn_last(rows, ticks);
    }
}
