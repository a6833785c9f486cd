// The library for C and Rust: each function of the plant's software over numbers and slices. C has no Result: answers are document 01's numbers.
#![tactic(auto)]

ghost use Rattle.std.specs.Prelude.{◌≡◌};
ghost use Rattle.microassembler.specs.Assembled.{assembled};
ghost use Rattle.image.specs.Image.{reading};
ghost use Rattle.printed.specs.Printed.{printed};
ghost use Rattle.facetgrove.specs.Runs.{engine_called, interpreter_called};
ghost use Rattle.facetgrove.specs.Rooms.{list_called, write_called};

// A run of the engine.
#[tactic(auto, unfolding(crate::specs::Runs::engine_called))]
#[unsafe(no_mangle)]
pub extern "C" fn facetgrove_engine_run(
    store: &[u32],
    memory: &mut [u16],
    input: &[u16],
    log: &mut [u16],
    registers: &mut [u16; 8],
    state: &mut [usize; 4],
    cycles: u32,
    told: &mut [usize; 2],
) -> u32
    ensures { engine_called store.now input.now cycles registers.old state.old memory.old log.old ≡ record { answer = result; registers = registers.new; state = state.new; memory = memory.new; log = log.new; told = told.new } }
{
    let machine = lists::machine_of(*registers, *state);
    let ran = engine::run(store, memory, input, log, machine, cycles);
    lists::hand_back_engine(ran, registers, state, told)
}

// A press on the operator's panel: the engine's run of 1.
#[unsafe(no_mangle)]
pub extern "C" fn facetgrove_press(
    registers: &mut [u16; 8],
    state: &mut [usize; 4],
    memory: &mut [u16],
    input: &[u16],
    log: &mut [u16],
    store: &[u32],
    told: &mut [usize; 2],
) -> u32
    ensures { engine_called store.now input.now 1 registers.old state.old memory.old log.old ≡ record { answer = result; registers = registers.new; state = state.new; memory = memory.new; log = log.new; told = told.new } }
{
    let machine = lists::machine_of(*registers, *state);
    let pressed = panel::pressed_through(machine, memory, input, log, store);
    let ran = lists::counted(pressed);
    lists::hand_back_engine(ran, registers, state, told)
}

// A run of the interpreter.
#[tactic(auto, unfolding(crate::specs::Runs::interpreter_called))]
#[unsafe(no_mangle)]
pub extern "C" fn facetgrove_interpreter_run(
    memory: &mut [u16],
    input: &[u16],
    log: &mut [u16],
    registers: &mut [u16; 3],
    state: &mut [usize; 2],
    instructions: u32,
    told: &mut [u64; 2],
) -> u32
    ensures { interpreter_called input.now instructions registers.old state.old memory.old log.old ≡ record { answer = result; registers = registers.new; state = state.new; memory = memory.new; log = log.new; told = told.new } }
{
    let cpu = lists::cpu_of(*registers, *state);
    let ran = interpreter::run(memory, input, log, cpu, instructions);
    lists::hand_back_interpreter(ran, registers, state, told)
}

// Micro text to a control store.
#[unsafe(no_mangle)]
pub extern "C" fn facetgrove_micro_assemble(text: &[u8], store: &mut [u32]) -> u32
    ensures { assembled text.now store.old ≡ record { answer = result; store = store.new } }
{
    lists::answer_of(microassembler::assemble(text, store))
}

// A control store's listing, at the start of the room.
#[tactic(auto, unfolding(crate::specs::Rooms::list_called))]
#[unsafe(no_mangle)]
pub extern "C" fn facetgrove_micro_list(
    store: &[u32],
    room: &mut [u8],
    told: &mut [usize; 2],
) -> u32
    ensures { list_called store.now room.old ≡ record { answer = result; room = room.new; told = told.new } }
{
    let listed = lister::list(store, room);
    *told = match listed {
        Ok(length) => [length, 0],
        Err(refusal) => [0, lists::line_named(refusal.line())],
    };
    lists::answer_of(listed)
}

// An image to a memory.
#[unsafe(no_mangle)]
pub extern "C" fn facetgrove_image_read(image: &[u8], memory: &mut [u16]) -> u32
    ensures { reading image.now memory.old ≡ record { answer = result; memory = memory.new } }
{
    lists::answer_of(image::read(image, memory))
}

// A memory's image, at the start of the room.
#[tactic(auto, unfolding(crate::specs::Rooms::write_called))]
#[unsafe(no_mangle)]
pub extern "C" fn facetgrove_image_write(
    memory: &[u16],
    room: &mut [u8],
    length: &mut [usize; 1],
) -> u32
    ensures { write_called memory.now room.old ≡ record { answer = result; room = room.new; told = length.new } }
{
    let written = image::write(memory, room);
    *length = [written.unwrap_or(0)];
    lists::answer_of(written)
}

// The printed microprogram.
#[unsafe(no_mangle)]
pub extern "C" fn facetgrove_printed_store(store: &mut [u32; 64])
    ensures { store.new ≡ printed }
{
    *store = printed::store();
}
