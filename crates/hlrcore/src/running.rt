//! Several events of a shard, one after the other.

ghost use Rattle.std.specs.Prelude.{IfOk, IfErr};
ghost use Rattle.hlrcore.specs.Shards.{IsSameShard};
ghost use Rattle.hlrcore.specs.Running.{BreaksOff, RunsTo};

use crate::answer::StepAnswer;
use crate::event::Event;
use crate::fault::StepFault;
use crate::state::State;

/// A run that stops early: the answers to the events handled, in order, and why the next event was not handled.
#[derive(Drop)]
pub struct RunFault {
    pub done: Vec<StepAnswer>,
    pub fault: StepFault,
}

impl State {
    /// Handles events in order, and returns their answers in this order. It stops at the first event that `State::step` refuses or
    /// that runs out of memory; the state is then that after the events before it.
    pub fn run(&mut self, events: &[Event]) -> Result<Vec<StepAnswer>, RunFault>
        ensures runs { IfOk result (λ answers. RunsTo self.old events.now answers.items self.new) }
        ensures breaks_off { IfErr result
            (λ refused. BreaksOff self.old events.now refused.done.items refused.fault self.new) }
        ensures same_shard { IsSameShard self.old self.new }
    {
        let mut done = Vec::new(self.alloc());
        for event in events {
            if done.reserve(1).is_err() {
                let fault = StepFault::Memory;
                return Err(RunFault { done, fault });
            }
            match self.step(event) {
                Ok(answer) => done.push_reserved(answer),
                Err(fault) => return Err(RunFault { done, fault }),
            }
        }
        Ok(done)
    }
}
