// The run program: an image on standard input, the report of 1,000 instructions on standard output, or the answer line.
#![tactic(auto)]

ghost use Rattle.std.specs.Prelude.{◌≡◌};
ghost use Rattle.word.specs.Answer.{answered};
ghost use Rattle.run.specs.declared.Refusal.TheVariants.{Image};
ghost use Rattle.run.specs.Refusals.{number};
ghost use Rattle.run.specs.Report.{ran, admitted, printed};

use console::{Program, Run};
use instruction::{Core, Cpu};
use interpreter::Ran;
use std::process::ExitCode;
use word::Address;

// Why an input is not run: it is more than any image has, or the image reader refuses it.
#[derive(Clone, Copy, Debug, PartialEq, Eq)]
enum Refusal {
    TooLong,
    Image(image::Refusal),
}

impl From<image::Refusal> for Refusal {
    ghost from_gives = { λ refused r. r ≡ Image refused };

    fn from(refused: image::Refusal) -> Refusal {
        Refusal::Image(refused)
    }
}

// Document 01's number of it.
impl From<Refusal> for u32 {
    ghost from_gives = { λ r n. n ≡ number r };

    fn from(refusal: Refusal) -> u32 {
        match refusal {
            Refusal::TooLong => 25,
            Refusal::Image(refused) => u32::from(refused),
        }
    }
}

// Reads the input into a memory.
#[tactic(auto, unfolding(crate::specs::Report::admitted))]
fn read(input: &[u8], memory: &mut [u16]) -> Result<(), Refusal>
    ensures { admitted input.now memory.old ≡ record { answer = answered number result; memory = memory.new } }
{
    if image::LONGEST < input.len() {
        return Err(Refusal::TooLong);
    }
    image::read(input, memory)?;
    Ok(())
}

// The report of a memory's run, in the room. A refused run leaves the registers as they stood.
#[tactic(auto, using(console::proofs::Laws::front), unfolding(crate::specs::Report::ran))]
fn run_memory<'a>(memory: &mut [u16], room: &'a mut [u8; 512]) -> &'a [u8]
    ensures { result.now ≡ ran memory.old }
{
    let mut log = [0u16; 8];
    let core = Core {
        cp: Address(0),
        pp: Address(0),
        ac: 0,
        place: 0,
    };
    let start = Cpu { core, count: 0 };
    let (answer, end) = match interpreter::run(memory, &[], &mut log, start, 1000) {
        Ok(ran) => (bus::number_of(ran.stop), ran),
        Err(refusal) => (
            u32::from(refusal),
            Ran {
                cpu: start,
                done: 0,
                cycles: 0,
                stop: None,
            },
        ),
    };
    let core = end.cpu.core;
    let run = Run {
        answer,
        done: end.done,
        cycles: end.cycles,
        cp: core.cp,
        pp: core.pp,
        ac: core.ac,
        count: end.cpu.count,
    };
    let length = console::report(run, &log, room);
    &room[..length]
}

// The text for an input, in the room.
#[tactic(auto, using(crate::proofs::Laws::read_text))]
fn text<'a>(input: &[u8], room: &'a mut [u8; 512]) -> &'a [u8]
    ensures { result.now ≡ printed input.now }
{
    let mut memory = [0u16; 4096];
    match read(input, &mut memory) {
        Ok(()) => run_memory(&mut memory, room),
        Err(refusal) => {
            let length = console::refusal(u32::from(refusal), None, room);
            &room[..length]
        }
    }
}

// A read that fails runs nothing.
fn main(rt: HostRuntime) -> ExitCode {
    let mut input = [0u8; image::LONGEST + 1];
    let program = Program {
        rt: &rt,
        name: b"run",
    };
    let Ok(n) = program.read_input(&mut input) else {
        return ExitCode::FAILURE;
    };
    let mut room = [0u8; 512];
    program.print(text(&input[..n], &mut room))
}
