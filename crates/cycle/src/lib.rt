// One cycle of the machine, driven by one control word.
#![tactic(auto)]

ghost use Rattle.std.specs.Prelude.{◌≡◌, ◌<◌};
ghost use Rattle.cycle.specs.Cycle.{stored, next_line, cycle_of};
ghost use Rattle.cycle.specs.Code.Standing.{standing, stepped, beginning, began};
ghost use Rattle.bus.specs.Code.Lent.{Stays};

use bus::{Bus, Stop};
use datapath::{Half, Moving};
use microword::Fields;
use word::{Address, Line};

const REM: usize = 6;

const RDM: usize = 7;

// What a cycle changes beside registers, memory and log: the control line, the input place, what is half done and the log count.
// Line and half done stand apart: side by side the compiler packs them into one processor register and takes them apart in each cycle.
#[derive(Clone, Copy)]
pub struct Standing {
    pub line: Line,
    pub place: usize,
    pub half: Half,
    pub count: usize,
}

#[tactic(auto, unfolding(crate::specs::Cycle::next_line, crate::specs::Cycle::target))]
fn next_line(m: Fields, value: u16, line: Line) -> Line
    requires { m.end < 64 }
    ensures { result.0 ≡ next_line 6 m value line.0 }
{
    if datapath::does_jump(m.sq, value) {
        return Line(m.end as u8);
    }
    line.next()
}

// If HS, the value is stored to S.
#[tactic(auto, unfolding(crate::specs::Cycle::stored))]
fn store_value(m: Fields, value: u16, registers: &mut [u16; 8])
    requires { m.s < 8 }
    ensures { registers.new ≡ stored m value registers.old }
{
    if m.hs == 1 {
        let s = m.s as usize;
        registers[s] = datapath::keep_in(m.s, value);
    }
}

// What a cycle has once it has stored: the fields of its word, the line that follows, and what stood in S.
#[derive(Clone, Copy)]
struct Begun {
    m: Fields,
    next: Line,
    old: u16,
}

// Read A and B from the registers as they stood; compute; if HS, store to S.
fn begin(word: u32, line: Line, registers: &mut [u16; 8]) -> Begun
    ensures { beginning word line.0 registers.old ≡ began result registers.new }
{
    let m = microword::fields_of(word);
    let a = m.a as usize;
    let b = m.b as usize;
    let s = m.s as usize;
    let value = datapath::compute(m.f, registers[a], registers[b]);
    let next = next_line(m, value, line);
    let old = registers[s];
    store_value(m, value, registers);
    Begun { m, next, old }
}

// One cycle, driven by a control word, on what is lent; a refused one leaves everything as it was.
pub fn step(
    word: u32,
    before: Standing,
    registers: &mut [u16; 8],
    bus: &mut Bus,
) -> Result<Standing, Stop>
    ensures stays { Stays bus.old bus.new }
    ensures steps { cycle_of word bus.old.input.now (standing before registers.old bus.old.memory.now bus.old.log.now) ≡ stepped before result registers.new bus.new.memory.now bus.new.log.now }
{
    let first = begin(word, before.line, registers);
    let m = first.m;
    // A cycle with neither RD nor WR leaves nothing half done.
    if m.rd != 1 && m.wr != 1 {
        return Ok(Standing {
            line: first.next,
            half: Half::Nothing,
            ..before
        });
    }
    let moving = Moving {
        rdm: registers[RDM],
        half: before.half,
        place: before.place,
        count: before.count,
    };
    let rem = Address(registers[REM]);
    match datapath::transfer(m.rd == 1, m.wr == 1, rem, moving, bus) {
        Ok(moved) => {
            // Only a cycle with RD can change RDM by its transfer: the others need not touch it.
            if m.rd == 1 {
                registers[RDM] = moved.rdm;
            }
            Ok(Standing {
                line: first.next,
                half: moved.half,
                place: moved.place,
                count: moved.count,
            })
        }
        Err(stop) => {
            registers[m.s as usize] = first.old;
            Err(stop)
        }
    }
}
