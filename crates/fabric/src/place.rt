//! Where the branch of a channel stands.

ghost use Rattle.std.specs.Prelude.{◌≡◌, ◌≢◌, ◌<◌, ◌≤◌, ◌*◌, ℕ, true, false, IfSome, IfNone};
ghost use Rattle.fabric.specs.Following.{is_behind};
ghost use Rattle.fabric.specs.Table.{end_at, end_of, end_on, vci_at};

use net_types::{
    CONTROL_PORT, Channel, DEFAULT_CHANNEL, End, GREATEST_LABEL_VCI, LAST_PORT, LEAST_LABEL_VCI,
    PortNo, VPIS_PER_PORT,
};

/// The ports of links at most.
pub(crate) const PORTS_OF_LINKS: usize = LAST_PORT as usize;

/// The rows: for each of these ports that of its channels on the control port, and then that of its
/// own.
pub(crate) const ROWS: usize = 2 * PORTS_OF_LINKS;

/// The channels of one path: VCI 15, and VCI 32 to 1023.
pub(crate) const CHANNELS: usize = (GREATEST_LABEL_VCI - BEFORE_LABELS) as usize + 1;

/// The paths of a port at most. On the control port its path x shows as 16 times the port plus x.
const PATHS: usize = VPIS_PER_PORT as usize;

/// The columns of a row at most: the channels of these paths.
pub(crate) const COLUMNS: usize = CHANNELS * PATHS;

/// The default channel of a path.
const DEFAULT_VCI: u16 = DEFAULT_CHANNEL.vci;

/// The VCI before the least label.
const BEFORE_LABELS: u16 = LEAST_LABEL_VCI - 1;

/// Where the branch of a channel stands, if the switch can connect it.
#[derive(Clone, Copy, Debug)]
pub(crate) struct Position {
    pub(crate) row: usize,
    pub(crate) column: usize,
}

/// The row and the path of a channel. None where it is on no path of a port from 1 to 8.
fn row_of(end: End) -> Option<(usize, usize)>
    ensures row { IfSome result (λ r. r.0 < 16) }
    ensures path { IfSome result (λ r. r.1 < 16) }
    ensures end { IfSome result (λ r. (number : ℕ) → vci_at number ≡ end.channel.vci → end_on r.0 r.1 number ≡ end) }
    ensures none { IfNone result ((row path number : ℕ) → row < 16 → path < 16 → end_on row path number ≢ end) }
{
    let port = end.port.0 as usize;
    let vpi = end.channel.vpi as usize;
    if port == CONTROL_PORT.0 as usize {
        if vpi < PATHS || PATHS * (PORTS_OF_LINKS + 1) <= vpi {
            return None;
        }
        return Some((vpi / PATHS - 1, vpi % PATHS));
    }
    if port > PORTS_OF_LINKS || vpi >= PATHS {
        return None;
    }
    Some((PORTS_OF_LINKS + port - 1, vpi))
}

/// The number of a channel on its path.
fn number_of(vci: u16) -> Option<usize>
    ensures within { IfSome result (λ number. number < 993) }
    ensures vci { IfSome result (λ number. vci_at number ≡ vci) }
    ensures none { IfNone result ((number : ℕ) → number < 993 → vci_at number ≢ vci) }
{
    if vci == DEFAULT_VCI {
        return Some(0);
    }
    if vci <= BEFORE_LABELS || BEFORE_LABELS as usize + CHANNELS <= vci as usize {
        return None;
    }
    Some((vci - BEFORE_LABELS) as usize)
}

/// The row and the column of a channel. None where no switch connects it.
pub(crate) fn place_of(end: End) -> Option<Position>
    ensures row { IfSome result (λ place. place.row < 16) }
    ensures column { IfSome result (λ place. place.column < 15888) }
    ensures end { IfSome result (λ place. end_of place.row place.column ≡ end) }
    ensures none { IfNone result ((n : ℕ) → n < 15888 * 16 → end_at n ≢ end) }
{
    let (row, path) = row_of(end)?;
    let number = number_of(end.channel.vci)?;
    Some(Position {
        row,
        column: CHANNELS * path + number,
    })
}

/// The channel of a row and a column.
pub(crate) fn end_of(row: usize, column: usize) -> End
    requires row { row < 16 }
    requires column { column < 15888 }
    ensures { result ≡ end_of row column }
{
    let path = (column / CHANNELS) as u16;
    let number = (column % CHANNELS) as u16;
    let vci = if number == 0 {
        DEFAULT_VCI
    } else {
        BEFORE_LABELS + number
    };
    if row < PORTS_OF_LINKS {
        let vpi = PATHS as u16 * (row as u16 + 1) + path;
        return End {
            port: CONTROL_PORT,
            channel: Channel { vpi, vci },
        };
    }
    End {
        port: PortNo((row - PORTS_OF_LINKS + 1) as u8),
        channel: Channel { vpi: path, vci },
    }
}

/// Whether a channel stands behind another, in the order of port, VPI and VCI.
fn is_behind(other: End, end: End) -> bool
    ensures { result ≡ is_behind (Some other) end }
{
    if other.port != end.port {
        return other.port.0 < end.port.0;
    }
    if other.channel.vpi != end.channel.vpi {
        return other.channel.vpi < end.channel.vpi;
    }
    other.channel.vci < end.channel.vci
}

/// How many columns, all rows in order, have channels that don't stand behind this one; none where
/// there is no channel. Those of the other columns do.
pub(crate) fn places_up_to(other: Option<End>) -> usize
    ensures most { result ≤ 15888 * 16 }
    ensures up_to { (n : ℕ) → n < result → is_behind other (end_at n) ≡ false }
    ensures others { (n : ℕ) → result ≤ n → n < 15888 * 16 → is_behind other (end_at n) ≡ true }
{
    let Some(other) = other else {
        return 0;
    };
    let mut low = 0;
    let mut high = ROWS * COLUMNS;
    while low < high {
        let middle = (low + high) / 2;
        if is_behind(other, end_of(middle / COLUMNS, middle % COLUMNS)) {
            high = middle;
        } else {
            low = middle + 1;
        }
    }
    low
}
