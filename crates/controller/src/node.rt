//! The controller of a node in a network.

use crate::cells::take_cell;
use crate::controller::Controller;
use crate::opening::open_router;
use aal5_frames::MAX_FRAME;
use atm_cells::Cell;
use controller_router::OpenEngine;
use ipv4_forward::{RouteChange, Table};
use ipv4_packet::{IFMP_PROTOCOL, check, protocol};
use link_model::Notes;
use net_types::{Channel, Mark, Numbers, OutOfMemory};
use node_controller::{InjectFault, NodeController, NodeSetup};
use std::alloc::Global;

impl<E: OpenEngine> NodeController for Controller<E> {
    ghost use Rattle.controller.specs.Controlling.{controller_of, has_failed};

    type Policy = E::Policy;

    ghost seen = { controller_of E.seen };

    ghost failed = { has_failed };

    ghost meaning = { E.meaning };

    fn open(
        alloc: Global,
        setup: &NodeSetup<'_>,
        table: Table,
        policy: E::Policy,
        numbers: &mut Numbers,
    ) -> Result<Controller<E>, OutOfMemory> {
        let router = open_router(alloc, setup, table, policy, numbers)?;
        Ok(Controller {
            router,
            frame: [0; MAX_FRAME],
            failure: None,
        })
    }

    fn receive(
        &mut self,
        cell: &Cell,
        numbers: &mut Numbers,
        notes: &mut Notes,
    ) -> Result<(), OutOfMemory> {
        if let Some(error) = self.failure {
            return Err(error);
        }
        let result = take_cell(&mut self.router, cell, &mut self.frame, numbers, notes);
        self.failure = result.err();
        result
    }

    fn inject(&mut self, number: u32, packet: &[u8], notes: &mut Notes) -> Result<(), InjectFault> {
        if let Err(fault) = check(packet) {
            return Err(InjectFault::Packet(fault));
        }
        if protocol(packet) == IFMP_PROTOCOL {
            return Err(InjectFault::ControlProtocol);
        }
        if let Some(error) = self.failure {
            return Err(InjectFault::OutOfMemory(error));
        }
        let result = self.router.enter(number, packet, notes);
        self.failure = result.err();
        match result {
            Ok(()) => Ok(()),
            Err(error) => Err(InjectFault::OutOfMemory(error)),
        }
    }

    fn tick(&mut self, numbers: &mut Numbers, notes: &mut Notes) -> Result<(), OutOfMemory> {
        if let Some(error) = self.failure {
            return Err(error);
        }
        let result = self.router.tick(numbers, notes);
        self.failure = result.err();
        result
    }

    fn restart(&mut self, numbers: &mut Numbers, notes: &mut Notes) -> Result<(), OutOfMemory> {
        if let Some(error) = self.failure {
            return Err(error);
        }
        let result = self.router.restart_node(numbers, notes);
        self.failure = result.err();
        result
    }

    fn change(
        &mut self,
        change: &RouteChange,
        numbers: &mut Numbers,
        notes: &mut Notes,
    ) -> Result<(), OutOfMemory> {
        if let Some(error) = self.failure {
            return Err(error);
        }
        let result = self.router.change(change, numbers, notes);
        self.failure = result.err();
        result
    }

    fn forge(
        &mut self,
        channel: Channel,
        payload: &[u8],
        mark: Mark,
        notes: &mut Notes,
    ) -> Result<(), OutOfMemory> {
        if let Some(error) = self.failure {
            return Err(error);
        }
        let result = self.router.send(channel, mark, payload, notes);
        self.failure = result.err();
        result
    }

    fn pop(&mut self) -> Option<Cell> {
        self.router.pop()
    }

    fn cell(&self, index: usize) -> Option<Cell> {
        self.router.cell(index)
    }

    fn queued(&self) -> usize {
        self.router.queued()
    }

    fn redirects(&self) -> u64 {
        self.router.router().redirects()
    }

    fn abandon(self) {
        let Controller {
            router,
            frame: _,
            failure: _,
        } = self;
        router.abandon();
    }
}
