// Machine and registers as a caller's lists of numbers: what the lists stand for, and what a call hands back to them.
#![tactic(auto)]

ghost use Rattle.std.specs.Prelude.{◌≡◌, List, ℕ, MatchResult};
ghost use Rattle.word.specs.Answer.{named};
ghost use Rattle.engine.specs.Run.{ended_by};
ghost use Rattle.interpreter.specs.Run.{ended_by as interpreter_ended_by};
ghost use Rattle.lists.specs.Engine.{machine_of, counted, leaves};
ghost use Rattle.lists.specs.Interpreter.{cpu_of, leaves as interpreter_leaves};

use datapath::Half;
use engine::{Machine, Ran, Refusal};
use instruction::{Core, Cpu};
use panel::Pressed;
use word::{Address, Line};

// The answer number of a call: 0 where it is done, else that of its refusal.
pub fn answer_of<T: Drop, E: Drop + Into<u32>>(called: Result<T, E>) -> u32
    ensures { MatchResult called (λ _. result ≡ 0) (λ refusal. E.converts refusal result) }
{
    match called {
        Ok(_) => 0,
        Err(refusal) => refusal.into(),
    }
}

// The line that a refusal names, as a number; 0 where it names none.
pub fn line_named(line: Option<Line>) -> usize
    ensures { result ≡ named line }
{
    line.map_or(0, usize::from)
}

// The machine that a caller's registers and state stand for. A line or half done that the machine has not goes as line 64, which the engine refuses.
#[tactic(auto, unfolding(crate::specs::Engine::machine_of, crate::specs::Engine::line_of, crate::specs::Engine::half_of))]
pub fn machine_of(registers: [u16; 8], state: [usize; 4]) -> Machine
    ensures { result ≡ machine_of registers state }
{
    let [place, count, line, half] = state;
    let known = Half::try_from(half);
    let line = if known.is_ok() && line < 64 {
        Line(line as u8)
    } else {
        Line(64)
    };
    Machine {
        line,
        registers,
        half: known.unwrap_or(Half::Write),
        place,
        count,
    }
}

// What the engine's run left goes back to the caller's lists; a refusal leaves registers and state as found.
#[tactic(auto, using(crate::proofs::Handed::ran_leaves, crate::proofs::Handed::refused_leaves))]
pub fn hand_back_engine(
    ran: Result<Ran, Refusal>,
    registers: &mut [u16; 8],
    state: &mut [usize; 4],
    told: &mut [usize; 2],
) -> u32
    ensures { (machine : Machine) (memory log : List ℕ) → leaves (ended_by machine ran memory log) registers.old state.old ≡ record { answer = result; registers = registers.new; state = state.new; memory = memory; log = log; told = told.new } }
{
    match ran {
        Ok(
            Ran {
                machine,
                done,
                stop,
            },
        ) => {
            // A name of its own, since the borrow checker takes no array straight from a field.
            let held = machine.registers;
            *registers = held;
            *state = [
                machine.place,
                machine.count,
                machine.line.into(),
                machine.half.into(),
            ];
            *told = [done as usize, 0];
            bus::number_of(stop)
        }
        Err(refusal) => {
            *told = [0, line_named(refusal.line())];
            refusal.into()
        }
    }
}

// A press as the run of 1 that it is.
pub fn counted(pressed: Result<Pressed, Refusal>) -> Result<Ran, Refusal>
    ensures { result ≡ counted pressed }
{
    let pressed = pressed?;
    Ok(Ran {
        machine: pressed.machine,
        done: match pressed.stop {
            None => 1,
            Some(_) => 0,
        },
        stop: pressed.stop,
    })
}

// The registers that a caller's lists stand for.
pub fn cpu_of(registers: [u16; 3], state: [usize; 2]) -> Cpu
    ensures { result ≡ cpu_of registers state }
{
    let [cp, ac, pp] = registers;
    let [place, count] = state;
    Cpu {
        core: Core {
            cp: Address(cp),
            ac,
            pp: Address(pp),
            place,
        },
        count,
    }
}

// What the interpreter's run left goes back to the caller's lists, which C has of other lengths than the engine's.
pub fn hand_back_interpreter(
    ran: Result<interpreter::Ran, bus::Refusal>,
    registers: &mut [u16; 3],
    state: &mut [usize; 2],
    told: &mut [u64; 2],
) -> u32
    ensures { (memory log : List ℕ) → interpreter_leaves (interpreter_ended_by (cpu_of registers.old state.old) ran memory log) ≡ record { answer = result; registers = registers.new; state = state.new; memory = memory; log = log; told = told.new } }
{
    match ran {
        Ok(
            interpreter::Ran {
                cpu: Cpu { core, count },
                done,
                cycles,
                stop,
            },
        ) => {
            *registers = [core.cp.0, core.ac, core.pp.0];
            *state = [core.place, count];
            *told = [done as u64, cycles];
            bus::number_of(stop)
        }
        Err(refusal) => {
            *told = [0, 0];
            refusal.into()
        }
    }
}
