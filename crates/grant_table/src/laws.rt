//! What ties a table to the definitions of a port, as a function that does nothing: its clause is a law
//! of the definitions.

ghost use Rattle.std.specs.Prelude.{◌≡◌, ℕ, Some};
ghost use Rattle.ipv4_packet.specs.declared.flow.FlowId.{FlowId};
ghost use Rattle.branch_desk.specs.port_model.Setup.{Setup};
ghost use Rattle.branch_desk.specs.port_model.Grants.{acceptance_of};
ghost use Rattle.grant_table.specs.Table.{Table, acceptance_in};

/// What a table makes of a REDIRECT is what a port of its range makes of it.
pub fn tables_are_the_ports()
    ensures { (setup : Setup) (table : Table) (label : ℕ) (flow : FlowId) → table.least ≡ setup.least → table.greatest ≡ setup.greatest → acceptance_in table label flow ≡ acceptance_of setup table.grants flow (Some label) }
{}
