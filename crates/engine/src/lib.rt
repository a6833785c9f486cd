// The cycle engine for any control store: a run of cycles.
#![tactic(auto)]

ghost use Rattle.std.specs.Prelude.{◌≡◌};
ghost use Rattle.engine.specs.Run.{number, named_line, saying, refusal, cycles, ended, runs, state_of, ended_by};
ghost use Rattle.bus.specs.Code.Lent.{Stays};

use bus::{Bus, Stop};
use cycle::Standing;
use datapath::Half;
use word::Line;

const CP: usize = 0;

const PP: usize = 2;

const REM: usize = 6;

// The machine: its control line, its registers by number, what is half done, the input place and the log count.
#[derive(Clone, Copy)]
pub struct Machine {
    pub line: Line,
    pub registers: [u16; 8],
    pub half: Half,
    pub place: usize,
    pub count: usize,
}

// What a run is refused for before its first cycle.
#[derive(Clone, Copy, Debug, PartialEq, Eq)]
pub enum Refusal {
    Lent(bus::Refusal),
    BadWord(Line),
}

impl From<bus::Refusal> for Refusal {
    ghost use Rattle.engine.specs.declared.Refusal.TheVariants.{Lent};

    ghost from_gives = { λ lent refusal. refusal ≡ Lent lent };

    fn from(refusal: bus::Refusal) -> Refusal {
        Refusal::Lent(refusal)
    }
}

impl From<Refusal> for u32 {
    ghost from_gives = { λ refusal n. n ≡ number refusal };

    fn from(refusal: Refusal) -> u32 {
        match refusal {
            Refusal::Lent(lent) => lent.into(),
            Refusal::BadWord(_) => 4,
        }
    }
}

impl Refusal {
    // The line that it names.
    pub fn line(self) -> Option<Line>
        ensures { result ≡ named_line self }
    {
        match self {
            Refusal::Lent(_) => None,
            Refusal::BadWord(line) => Some(line),
        }
    }
}

// A run that was not refused: the machine at its end, the cycles carried out, and what stopped it.
#[derive(Clone, Copy)]
pub struct Ran {
    pub machine: Machine,
    pub done: u32,
    pub stop: Option<Stop>,
}

// Refusals 1 to 4, in order. The lists come one by one, as C lends them.
#[tactic(auto, unfolding(crate::specs::Run::refusal, crate::specs::Run::refusal_by))]
fn check(
    store: &[u32],
    memory: &[u16],
    input: &[u16],
    log: &[u16],
    machine: Machine,
) -> Result<(), Refusal>
    ensures { saying result ≡ refusal store.now input.now (state_of machine memory.now log.now) }
{
    if bus::is_wrong_memory(memory) || store::is_wrong(store) {
        return Err(bus::Refusal::WrongSize.into());
    }
    if bus::is_past_end(input, machine.place, log, machine.count) {
        return Err(bus::Refusal::PastEnd.into());
    }
    let registers = machine.registers;
    if bus::is_outside(registers[CP])
        || bus::is_outside(registers[PP])
        || bus::is_outside(registers[REM])
        || 63 < machine.line.0
    {
        return Err(bus::Refusal::OutOfRange.into());
    }
    match store::first_bad(store) {
        Some(line) => Err(Refusal::BadWord(Line(line as u8))),
        None => Ok(()),
    }
}

// The machine record, put together again.
fn machine_of(at: Standing, registers: [u16; 8]) -> Machine
    ensures { result ≡ record { line = at.line; registers = registers; half = at.half; place = at.place; count = at.count } }
{
    Machine {
        line: at.line,
        registers,
        half: at.half,
        place: at.place,
        count: at.count,
    }
}

// n cycles in turn. The registers stand apart from what else a cycle changes, which the compiler then keeps in processor registers.
fn repeat(store: &[u32], bus: &mut Bus, machine: Machine, n: u32) -> Ran
    ensures stays { Stays bus.old bus.new }
    ensures repeats { ended 0 (cycles store.now bus.old.input.now n (state_of machine bus.old.memory.now bus.old.log.now)) ≡ ended_by machine (Ok result) bus.new.memory.now bus.new.log.now }
{
    let mut registers = machine.registers;
    let mut at = Standing {
        line: machine.line,
        half: machine.half,
        place: machine.place,
        count: machine.count,
    };
    for done in 0..n {
        let word = store::word_at(store, at.line);
        match cycle::step(word, at, &mut registers, bus) {
            Ok(next) => at = next,
            Err(stop) => {
                return Ran {
                    machine: machine_of(at, registers),
                    done,
                    stop: Some(stop),
                };
            }
        }
    }
    Ran {
        machine: machine_of(at, registers),
        done: n,
        stop: None,
    }
}

// A run of n cycles: refusals 1 to 4 before any cycle, then the cycles in turn. The lists come one by one, as C lends them.
pub fn run(
    store: &[u32],
    memory: &mut [u16],
    input: &[u16],
    log: &mut [u16],
    machine: Machine,
    n: u32,
) -> Result<Ran, Refusal>
    ensures { runs store.now input.now n (state_of machine memory.old log.old) ≡ ended_by machine result memory.new log.new }
{
    check(store, memory, input, log, machine)?;
    let mut bus = Bus { memory, input, log };
    Ok(repeat(store, &mut bus, machine, n))
}
