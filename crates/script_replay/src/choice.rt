//! The policy that a script names, and that of rules.

ghost use Rattle.std.specs.Prelude.{◌≡◌};

use controller::Controller;
use flow_classifier::{NamedPolicy, XyPolicy};
use flow_policy::{RulePolicy, RuleSet};
use network_replay::PolicyChoice;
use port_router::RouterPort;
use topology::Topology;

/// The controller of an IP switch whose ports all go by a flow classifier (a policy) that a script
/// can name.
pub type NamedController = Controller<RouterPort<NamedPolicy>>;

/// The choice of the policy that the script names.
#[derive(Clone, Copy, Debug, Drop)]
pub(crate) struct ByName;

impl PolicyChoice<NamedController> for ByName {
    ghost use Rattle.world_model.specs.Topology.{policy_of};

    ghost chosen = { λ choice topology. policy_of topology };

    fn choose(&self, topology: &Topology) -> NamedPolicy {
        match topology.policy() {
            Some((packets, _)) => {
                let (_, _, idle) = topology.timers();
                NamedPolicy::Xy(XyPolicy {
                    x: packets,
                    idle: u32::from(idle),
                })
            }
            None => NamedPolicy::Never,
        }
    }
}

/// The controller of a node whose ports all go by rules.
pub(crate) type RuledController<'a> = Controller<RouterPort<RulePolicy<'a>>>;

/// The choice of rules, whatever the script names.
#[derive(Clone, Copy, Debug)]
pub(crate) struct ByRules<'a> {
    pub(crate) rules: &'a RuleSet,
}

impl<'a> PolicyChoice<RuledController<'a>> for ByRules<'a> {
    ghost use Rattle.rule_model.specs.Matching.{rules_policy};

    ghost chosen = { λ choice topology. rules_policy choice.rules.now };

    fn choose(&self, _topology: &Topology) -> RulePolicy<'a> {
        RulePolicy { rules: self.rules }
    }
}
