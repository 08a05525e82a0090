//! Default channels.

ghost use Rattle.law_live_hearing.specs.Shapes.{ShapesLeadByDefault};

/// Default channels lead to their port and home, where branches have their shapes. It does nothing, and its contract is the
/// statement.
pub fn channels_lead_by_default()
    ensures shapes { ShapesLeadByDefault }
{}
