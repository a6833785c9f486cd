// The operator's panel: one cycle a press, over a machine record that stays where it is lent.
#![tactic(auto)]

ghost use Rattle.std.specs.Prelude.{◌≡◌};
ghost use Rattle.engine.specs.Run.{state_of};
ghost use Rattle.panel.specs.Press.{press, pressed_by, passed_by};

use bus::Stop;
use engine::{Machine, Refusal};

// A press that was not refused: the machine after it, and what stopped it.
#[derive(Clone, Copy)]
pub struct Pressed {
    pub machine: Machine,
    pub stop: Option<Stop>,
}

// A press for programs, the engine's run of 1: the record goes in and out by value.
#[tactic(auto, unfolding(crate::specs::Press::press))]
pub fn pressed_through(
    machine: Machine,
    memory: &mut [u16],
    input: &[u16],
    log: &mut [u16],
    store: &[u32],
) -> Result<Pressed, Refusal>
    ensures { press store.now input.now (state_of machine memory.old log.old) ≡ passed_by machine result memory.new log.new }
{
    let ran = engine::run(store, memory, input, log, machine, 1)?;
    Ok(Pressed {
        machine: ran.machine,
        stop: ran.stop,
    })
}

// The same on a lent record: it is copied out, and what the press leaves is stored over it.
pub fn press(
    machine: &mut Machine,
    memory: &mut [u16],
    input: &[u16],
    log: &mut [u16],
    store: &[u32],
) -> Result<Option<Stop>, Refusal>
    ensures { press store.now input.now (state_of machine.old memory.old log.old) ≡ pressed_by result machine.new memory.new log.new }
{
    let pressed = pressed_through(*machine, memory, input, log, store)?;
    *machine = pressed.machine;
    Ok(pressed.stop)
}
