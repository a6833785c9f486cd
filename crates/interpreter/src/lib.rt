// The direct interpreter: a run of instructions.
#![tactic(auto, unfolding(instruction::specs::Instruction::sets, instruction::specs::Instruction::stores, instruction::specs::Instruction::gains, instruction::specs::Instruction::branches, bus::specs::Ports::read_at, bus::specs::Ports::write_at, bus::specs::Ports::goes, bus::specs::Ports::sent))]

ghost use Rattle.std.specs.Prelude.{◌≡◌, ℕ, List, ◌*◌, ◌≤◌, true};
ghost use Rattle.word.specs.Number.{kept};
ghost use Rattle.word.specs.Answer.{answered};
ghost use Rattle.bus.specs.Refusals.{number};
ghost use Rattle.instruction.specs.Instruction.{at, sets, gains, branches, stores, below, above, named, action, instruct, state_of};
ghost use Rattle.interpreter.specs.Run.{refusal, instructions, runs, ended_with, ended_by};
ghost use Rattle.interpreter.specs.Code.BelowPorts.{Done, Plain, Onward, held_below, popped};

use bus::{Refusal, Stop};
use instruction::{Core, Cpu};
use word::Address;

// The first port: below it an address is a word of memory.
const PORTS: u16 = 4092;

// A run: the registers at its end, the instructions carried out, the sum of their cycles, and what stopped it, if anything did.
#[derive(Clone, Copy)]
pub struct Ran {
    pub cpu: Cpu,
    pub done: u32,
    pub cycles: u64,
    pub stop: Option<Stop>,
}

// An instruction that meets no port: the registers afterwards and the table's cycles.
#[derive(Clone, Copy)]
struct Passed {
    core: Core,
    cycles: u64,
}

// Part of a run: the registers after it, how many instructions are done, and their cycles. The log count stands beside it: one value more
// sends the loop of `pass_below` by the stack, and a run takes 1.02 to 1.2 times as long as plain C's.
#[derive(Clone, Copy)]
struct Stage {
    core: Core,
    done: u32,
    cycles: u64,
}

impl Stage {
    // The run that ends here.
    fn ended(self, count: usize, stop: Option<Stop>) -> Ran
        ensures { result ≡ record { cpu = record { core = self.core; count = count }; done = self.done; cycles = self.cycles; stop = stop } }
    {
        let Stage { core, done, cycles } = self;
        Ran {
            cpu: Cpu { core, count },
            done,
            cycles,
            stop,
        }
    }
}

// The word at an address, if no port is there.
fn word_below(memory: &[u16; 4096], address: Address) -> Option<u16>
    ensures { result ≡ held_below memory.now address.0 }
{
    if PORTS <= address.0 {
        return None;
    }
    Some(memory[address.0 as usize])
}

// AC becomes what f makes of the word at an address.
fn gain_below<F: FnOnce(u16) -> u16>(
    cycles: u64,
    memory: &[u16; 4096],
    own: Core,
    address: Address,
    f: F,
) -> Option<Passed>
    requires { F.IsAlwaysCallable f }
    ensures { (made : ℕ → ℕ) → ((m r : ℕ) → F.post f m r → r ≡ made m) → Done (λ input s. gains cycles input s address.0 made) own memory.now result memory.now }
{
    let ac = f(word_below(memory, address)?);
    Some(Passed {
        core: Core { ac, ..own },
        cycles,
    })
}

// A jump to a port is left undone too: where it is taken, the branch must not become a choice of values.
fn jump_below(cycles: u64, own: Core, x: Address) -> Option<Passed>
    ensures { (memory : List ℕ) → Done (λ input s. branches cycles s true x.0) own memory result memory }
{
    if PORTS <= x.0 {
        return None;
    }
    Some(Passed {
        core: Core { cp: x, ..own },
        cycles,
    })
}

// The registers stay, and a word is written to an address.
fn write_below(
    cycles: u64,
    memory: &mut [u16; 4096],
    own: Core,
    address: Address,
    word: u16,
) -> Option<Passed>
    ensures { Plain (λ input s. stores cycles s s.cp s.pp s.place address.0 word) own memory.old result memory.new }
{
    if PORTS <= address.0 {
        return None;
    }
    memory[address.0 as usize] = word;
    Some(Passed { core: own, cycles })
}

// PP falls by 1, and a word is written where it then points.
fn push_below(cycles: u64, memory: &mut [u16; 4096], own: Core, word: u16) -> Option<Passed>
    ensures { Plain (λ input s. stores cycles s s.cp (below s) s.place (below s) word) own memory.old result memory.new }
{
    let pp = own.pp.minus(Address(1));
    write_below(cycles, memory, Core { pp, ..own }, pp, word)
}

// What is popped, and the registers with PP one higher.
fn popped_below(memory: &[u16; 4096], own: Core) -> Option<(u16, Core)>
    ensures { result ≡ popped memory.now own }
{
    let word = word_below(memory, own.pp)?;
    let pp = own.pp.plus(Address(1));
    Some((word, Core { pp, ..own }))
}

// PSHI, RETN, POP and POPI, in the order of the table.
fn push_named_below(memory: &mut [u16; 4096], own: Core) -> Option<Passed>
    ensures { Plain (λ input s. stores 11 s s.cp (below s) (at input s (named s)).place (below s) (at input s (named s)).word) own memory.old result memory.new }
{
    let word = word_below(memory, Address::of(own.ac))?;
    push_below(11, memory, own, word)
}

fn go_back_below(memory: &[u16; 4096], own: Core) -> Option<Passed>
    ensures { Done (λ input s. sets 9 s (kept 12 (at input s s.pp).word) (above s) s.ac (at input s s.pp).place) own memory.now result memory.now }
{
    let (word, own) = popped_below(memory, own)?;
    let cp = Address::of(word);
    Some(Passed {
        core: Core { cp, ..own },
        cycles: 9,
    })
}

fn pop_below(memory: &[u16; 4096], own: Core) -> Option<Passed>
    ensures { Done (λ input s. sets 10 s s.cp (above s) (at input s s.pp).word (at input s s.pp).place) own memory.now result memory.now }
{
    let (ac, own) = popped_below(memory, own)?;
    Some(Passed {
        core: Core { ac, ..own },
        cycles: 10,
    })
}

fn pop_named_below(memory: &mut [u16; 4096], own: Core) -> Option<Passed>
    ensures { Plain (λ input s. stores 11 s s.cp (above s) (at input s s.pp).place (named s) (at input s s.pp).word) own memory.old result memory.new }
{
    let (word, own) = popped_below(memory, own)?;
    write_below(11, memory, own, Address::of(own.ac), word)
}

// The table, in its order, below the ports. A jump's test stands here, since a choice of values would tie CP to AC.
// It stands in `instruction` too: one table for both, which reads and says its write, took up to 1.23 times plain C's time, this 1.02.
// The code stays its number, as in `instruction`.
#[tactic(auto, unfolding(instruction::specs::Instruction::action, instruction::specs::Instruction::branches, instruction::specs::Instruction::sets, instruction::specs::Instruction::stores))]
fn act_below(code: u32, x: Address, memory: &mut [u16; 4096], own: Core) -> Option<Passed>
    ensures { Plain (λ input s. action input code x.0 s) own memory.old result memory.new }
{
    let plus = |m| word::add(own.ac, m);
    let minus = |m| word::subtract(own.ac, m);
    match code {
        0 => gain_below(9, memory, own, x, |m| m),
        1 => write_below(9, memory, own, x, own.ac),
        2 => gain_below(9, memory, own, x, plus),
        3 => gain_below(9, memory, own, x, minus),
        4 => gain_below(10, memory, own, own.pp.plus(x), plus),
        5 => gain_below(9, memory, own, own.pp.plus(x), minus),
        6 if own.ac == 0 => jump_below(8, own, x),
        7 if 32768 <= own.ac => jump_below(8, own, x),
        6 | 7 => Some(Passed {
            core: own,
            cycles: 8,
        }),
        8 => jump_below(7, own, x),
        9 => Some(Passed {
            core: Core { ac: x.0, ..own },
            cycles: 7,
        }),
        10 => push_below(10, memory, Core { cp: x, ..own }, own.cp.0),
        11 => go_back_below(memory, own),
        12 => push_below(10, memory, own, own.ac),
        13 => push_named_below(memory, own),
        14 => pop_below(memory, own),
        _ => pop_named_below(memory, own),
    }
}

// One instruction below the ports.
#[tactic(auto, unfolding(instruction::specs::Instruction::acted, instruction::specs::Instruction::fetched, instruction::specs::Instruction::past, instruction::specs::Instruction::instruct, turns::specs::Turns::settled, bus::specs::Ports::read_at))]
fn carry_out_below(memory: &mut [u16; 4096], own: Core) -> Option<Passed>
    ensures { Plain instruct own memory.old result memory.new }
{
    let word = word_below(memory, own.cp)?;
    let cp = own.cp.plus(Address(1));
    let code = word::take(word as u32, 12, 4);
    act_below(code, Address::of(word), memory, Core { cp, ..own })
}

// As many of n instructions, from a stage on, as come before the first that meets a port.
#[inline(never)]
#[tactic(auto, using(crate::proofs::BelowPorts::stages))]
fn pass_below(memory: &mut [u16; 4096], from: Stage, n: u32) -> Stage
    requires within { from.done ≤ n }
    requires spent { from.cycles ≤ 11 * from.done }
    ensures { Onward n from memory.old result memory.new }
{
    // Taken apart and put together: copied whole, its padding would take a processor register all through the loop.
    let Core { cp, ac, pp, place } = from.core;
    let mut core = Core { cp, ac, pp, place };
    let mut cycles = from.cycles;
    for done in from.done..n {
        let Some(passed) = carry_out_below(memory, core) else {
            return Stage { core, done, cycles };
        };
        core = passed.core;
        cycles += passed.cycles;
    }
    Stage {
        core,
        done: n,
        cycles,
    }
}

// That many single instructions in turn: below the ports as long as none is met, then one through them, and so on.
// Memory, input and log come one by one, as in `check`.
#[tactic(auto, using(crate::proofs::BelowPorts::stages))]
fn carry_out_all(memory: &mut [u16; 4096], input: &[u16], log: &mut [u16], cpu: Cpu, n: u32) -> Ran
    ensures { instructions input.now n (state_of cpu memory.old log.old) ≡ ended_with result memory.new log.new }
{
    let Cpu { core, mut count } = cpu;
    let mut stage = Stage {
        core,
        done: 0,
        cycles: 0,
    };
    // No range is plainer: a turn carries out as many instructions as come before a port, and one more.
    loop {
        stage = pass_below(memory, stage, n);
        if stage.done == n {
            return stage.ended(count, None);
        }
        let cpu = Cpu {
            core: stage.core,
            count,
        };
        let acted = match instruction::carry_out(memory, input, log, cpu) {
            Ok(acted) => acted,
            Err(stop) => return stage.ended(count, Some(stop)),
        };
        count = acted.cpu.count;
        stage = Stage {
            core: acted.cpu.core,
            done: stage.done + 1,
            cycles: stage.cycles + acted.cycles,
        };
    }
}

// Refusals 2 and 3, in order: 1 is no more where memory has its 4,096 words.
// Memory, input and log come one by one and in no Bus, since memory is an array here.
#[tactic(auto, unfolding(crate::specs::Run::refusal))]
fn check(memory: &[u16; 4096], input: &[u16], log: &[u16], cpu: Cpu) -> Result<(), Refusal>
    ensures { refusal input.now (state_of cpu memory.now log.now) ≡ answered number result }
{
    let Cpu { core, count } = cpu;
    if bus::is_past_end(input, core.place, log, count) {
        return Err(Refusal::PastEnd);
    }
    if bus::is_outside(core.cp.0) || bus::is_outside(core.pp.0) {
        return Err(Refusal::OutOfRange);
    }
    Ok(())
}

// A run of n instructions, refusals 1 to 3 first, which leave all as found.
#[tactic(auto, using(crate::proofs::Laws::begun))]
pub fn run(
    memory: &mut [u16],
    input: &[u16],
    log: &mut [u16],
    cpu: Cpu,
    n: u32,
) -> Result<Ran, Refusal>
    ensures { runs input.now n (state_of cpu memory.old log.old) ≡ ended_by cpu result memory.new log.new }
{
    if bus::is_wrong_memory(memory) {
        return Err(Refusal::WrongSize);
    }
    // An array from here on; any other length was refused above.
    let memory: &mut [u16; 4096] = memory.as_mut_array().ok_or(Refusal::WrongSize)?;
    check(memory, input, log, cpu)?;
    Ok(carry_out_all(memory, input, log, cpu, n))
}
