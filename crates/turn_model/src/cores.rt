//! The turn machine, event by event.
ghost use Rattle.std.specs.Prelude.{◌≡◌, ◌↔◌, Err, IfOk, IsOk, IsSome, None, OnErr, Some};
ghost use Rattle.path_service.specs.declared.events.Why.{Why as Cause};
ghost use Rattle.path_service.specs.machine.States.{opening};
ghost use Rattle.path_service.specs.machine.Table.{why_not};
ghost use Rattle.path_service.specs.machine.Effects.{IsStep, IsCollect, TakesNoMemory};
ghost use Rattle.path_service.specs.machine.Facts.{Facts};

use crate::machines::Machine;
use crate::refusals::StepRefusal;
use grid_versions::MapSpec;
use nav_types::NoMemory;
use path_service::Event;
use posts::Reply;
use std::alloc::Global;
use std::marker::Model;

/// The turn machine of a map. Contracts see its state (`State`), of which all holds that holds of each state
/// that the machine reaches (`Facts`).
#[derive(Drop)]
pub struct Core {
    machine: Machine,
}

impl Model for Core {
    ghost use Rattle.path_service.specs.machine.States.{State};
    ghost use Rattle.path_service.specs.machine.Facts.{Facts};

    ghost Value = { State };

    ghost view = { λ core. core.machine };

    ghost invariant = { λ core. Facts core.machine };
}

impl Core {
    /// The machine of a map in its opening state (`opening`).
    pub fn new(alloc: Global, map: &MapSpec) -> Result<Core, NoMemory>
        ensures { IfOk result (λ core. core ≡ opening map.now) }
    {
        let machine = Machine::new(alloc, map)?;
        Ok(Core { machine })
    }

    /// Makes one step: the event is enabled and has its effect (`IsStep`). The reply is handed out where the
    /// event is a collect. `NotEnabled` comes exactly where the event is not enabled, with the first cause
    /// that holds and the value that shows it (`why_not`). After a refusal the core is as before.
    pub fn step(&mut self, event: &Event) -> Result<Option<Reply>, StepRefusal>
        ensures step { IfOk result (λ handed. IsStep self.old event.now handed self.new) }
        ensures handed { IfOk result (λ handed. IsSome handed ↔ IsCollect event.now) }
        ensures refused { OnErr result (self.new ≡ self.old) }
        ensures facts { Facts self.new }
        ensures named { (why : Cause) → (result ≡ Err (StepRefusal.NotEnabled why))
            ↔ (why_not self.old event.now ≡ Some why) }

        // A start and a claim take no memory.
        ensures free { TakesNoMemory event.now → why_not self.old event.now ≡ None → IsOk result }
    {
        if let Some(why) = self.machine.why_not(event) {
            return Err(StepRefusal::NotEnabled(why));
        }
        match self.machine.apply(event) {
            Ok(handed) => Ok(handed),
            Err(NoMemory) => Err(StepRefusal::NoMemory),
        }
    }
}
