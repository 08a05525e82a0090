//! The list of actions.

ghost use Rattle.std.specs.Prelude.{◌≡◌, ◌++◌, ◌∷◌, ◌↔◌, [], length, IsTrue, IfOk, IfNone, IfSome, OnOk, OnErr};

use net_types::OutOfMemory;
use port_model::Action;
use std::alloc::Global;
use std::collections::VecDeque;
use std::marker::Model;

/// Room for so many actions is taken at the opening.
const FIRST_ROOM: usize = 64;

/// A work queue: what a port asks of its controller, the first to be done first. This project's
/// own.
#[derive(Debug, Drop)]
pub struct Actions {
    pub(crate) list: VecDeque<Action>,
}

impl Model for Actions {
    ghost use Rattle.std.specs.Prelude.{List};
    ghost use Rattle.port_model.specs.declared.action.Action.{Action};

    ghost Value = { List Action };

    ghost view = { λ a. a.list.items };
}

impl Actions {
    /// No action, and no room for one yet: it takes no memory.
    pub fn new(alloc: Global) -> Actions
        ensures { result ≡ [] }
    {
        Actions {
            list: VecDeque::new(alloc),
        }
    }

    /// No action, with room for some.
    pub fn open(alloc: Global) -> Result<Actions, OutOfMemory>
        ensures { IfOk result (λ actions. actions ≡ []) }
    {
        Ok(Actions {
            list: VecDeque::with_capacity(alloc, FIRST_ROOM)?,
        })
    }

    /// How many there are.
    pub fn len(&self) -> usize
        ensures { result ≡ length self.now }
    {
        self.list.len()
    }

    /// Whether there is none.
    pub fn is_empty(&self) -> bool
        ensures { IsTrue result ↔ (self.now ≡ []) }
    {
        self.list.is_empty()
    }

    /// Appends an action. Want of memory changes nothing.
    pub fn push(&mut self, action: Action) -> Result<(), OutOfMemory>
        ensures ok { OnOk result (self.new ≡ self.old ++ action ∷ []) }
        ensures err { OnErr result (self.new ≡ self.old) }
    {
        self.list.push_back(action)?;
        Ok(())
    }

    /// Takes the first action out. None exactly where there is none.
    pub fn take_first(&mut self) -> Option<Action>
        ensures none { IfNone result ((self.old ≡ []) × (self.new ≡ [])) }
        ensures first { IfSome result (λ action. self.old ≡ action ∷ self.new) }
    {
        self.list.pop_front()
    }
}
