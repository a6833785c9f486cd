// Memory images: records of an address and a value, read into a lent memory and written from one.
#![tactic(auto)]

ghost use Rattle.std.specs.Prelude.{◌≡◌, false, cond, eqb, ltb, ◌+◌, ◌≤◌, ◌*◌, ◌/◌, ◌%◌, [], ◌∷◌, length, map, replicate};
ghost use Rattle.std.specs.Result.{result_unwrap_or};
ghost use Rattle.image.specs.Refusals.{number};
ghost use Rattle.word.specs.Answer.{answered};
ghost use Rattle.image.specs.Records.{bytes, fault, first_fault, record_of, record_in, records_from, laid};
ghost use Rattle.image.specs.Image.{reading, writing};
ghost use Rattle.text.specs.Laid.{Wrote};

use word::Address;

// The words of main memory.
const WORDS: usize = 4096;

// Those of them that an image records: all below the ports.
const RECORDED: u16 = 4092;

// The bytes of the longest image.
pub const LONGEST: usize = 16368;

// Why the reader or the writer refused.
#[derive(Clone, Copy, Debug, PartialEq, Eq)]
pub enum Refusal {
    WrongSize,
    ImageLength,
    AddressTooHigh,
    AddressNotAbove,
    ValueZero,
    RoomTooSmall,
}

// Document 01's number of it.
impl From<Refusal> for u32 {
    ghost from_gives = { λ r n. n ≡ number r };

    fn from(refusal: Refusal) -> u32 {
        match refusal {
            Refusal::WrongSize => 1,
            Refusal::ImageLength => 20,
            Refusal::AddressTooHigh => 21,
            Refusal::AddressNotAbove => 22,
            Refusal::ValueZero => 23,
            Refusal::RoomTooSmall => 24,
        }
    }
}

// A record of an image.
#[derive(Clone, Copy)]
struct Record {
    address: Address,
    value: u16,
}

// The four bytes of a record, high byte first, as one number, which the machine loads at once.
fn number_of(four: [u8; 4]) -> u32
    ensures { record { address = record { 0 = result / 65536 }; value = result % 65536 } ≡ record_in four }
{
    let [a, b, c, d] = four;
    let value = word::from_bytes([c, d]);
    u32::from(word::from_bytes([a, b])) * 65536 + u32::from(value)
}

// The record that four bytes are.
impl From<[u8; 4]> for Record {
    ghost from_gives = { λ four r. r ≡ record_in four };

    fn from(four: [u8; 4]) -> Record {
        Record::of(number_of(four))
    }
}

impl From<Record> for [u8; 4] {
    ghost from_gives = { λ r four. four ≡ bytes (r ∷ []) };

    #[tactic(auto, unfolding(crate::specs::Records::bytes))]
    fn from(it: Record) -> [u8; 4] {
        let [a, b] = word::to_bytes(it.address.0);
        let [c, d] = word::to_bytes(it.value);
        [a, b, c, d]
    }
}

impl Record {
    // Its own fault, wherever it stands.
    #[tactic(auto, unfolding(crate::specs::Records::fault))]
    fn judge(self) -> Result<(), Refusal>
        ensures { answered number result ≡ fault 0 self }
    {
        if RECORDED <= self.address.0 {
            return Err(Refusal::AddressTooHigh);
        }
        if self.value == 0 {
            return Err(Refusal::ValueZero);
        }
        Ok(())
    }

    // The record that a number is.
    fn of(number: u32) -> Record
        ensures { result ≡ record { address = record { 0 = number / 65536 }; value = number % 65536 } }
    {
        Record {
            address: Address((number / 65536) as u16),
            value: (number % 65536) as u16,
        }
    }

    // The number that it is.
    fn number(self) -> u32
        ensures { result ≡ self.address.0 * 65536 + self.value }
    {
        u32::from(self.address.0) * 65536 + u32::from(self.value)
    }

    // Whether it has a value and the next one's address is above its own.
    // The next one is compared whole: for a test of a part of it the compiler would load it in parts.
    fn goes_before(self, next: Record) -> bool
        ensures { result ≡ cond (eqb self.value 0) false (ltb self.address.0 next.address.0) }
    {
        self.value != 0 && u32::from(self.address.0) * 65536 + 65535 < next.number()
    }
}

// The first fault of records in turn. While records follow, only the last one's address can be too high.
// They go as numbers from turn to turn: a record would be two words, and be put together again for each comparison.
fn examine(records: &[[u8; 4]]) -> Result<(), Refusal>
    ensures { answered number result ≡ first_fault 0 (map record_in records.now) }
{
    let Some((first, rest)) = records.split_first() else {
        return Ok(());
    };
    let mut last = number_of(*first);
    for &four in rest {
        let next = number_of(four);
        if !Record::of(last).goes_before(Record::of(next)) {
            Record::of(last).judge()?;
            return Err(Refusal::AddressNotAbove);
        }
        last = next;
    }
    Record::of(last).judge()
}

// Lays records that have no fault over a memory of zeros.
fn lay(records: &[[u8; 4]], memory: &mut [u16])
    requires { (first_fault 0 (map record_in records.now) ≡ 0) × (length memory.old ≡ 4096) }
    ensures { memory.new ≡ laid (map record_in records.now) (replicate 4096 0) }
{
    memory.fill(0);
    for &four in records {
        let next = Record::from(four);
        memory[usize::from(next.address.0)] = next.value;
    }
}

// Reads an image into a lent memory: all of its words are set, or on a refusal none.
#[tactic(auto, using(crate::proofs::Records::chunked), unfolding(crate::specs::Image::reading, crate::specs::Image::left, crate::specs::Image::examined, crate::specs::Image::memory_of))]
pub fn read(image: &[u8], memory: &mut [u16]) -> Result<(), Refusal>
    ensures { reading image.now memory.old ≡ record { answer = answered number result; memory = memory.new } }
{
    if memory.len() != WORDS {
        return Err(Refusal::WrongSize);
    }
    let (records, rest) = image.as_chunks::<4>();
    if !rest.is_empty() {
        return Err(Refusal::ImageLength);
    }
    examine(records)?;
    lay(records, memory);
    Ok(())
}

// Puts a word's record into the room, and none for a word that is 0. Gives where it ends.
#[tactic(auto, using(text::proofs::Laid::nothing, crate::proofs::Putting::record_put), unfolding(crate::specs::Records::bytes))]
fn put(room: &mut [u8], at: usize, address: Address, value: u16) -> usize
    requires { at + 4 ≤ length room.old }
    ensures { Wrote room.old at (bytes (record_of address.0 value)) room.new result }
{
    if value == 0 {
        return at;
    }
    // Not by `text::put`, which would test the room again at each record: a sparse image took twice as long.
    room[at..at + 4].copy_from_slice(&<[u8; 4]>::from(Record { address, value }));
    at + 4
}

// Puts the records of words that follow each other, the first at address 0, into the room. Gives their length.
fn put_all(words: &[u16], room: &mut [u8]) -> usize
    requires { (length words.now ≤ 4092) × (4 * length words.now ≤ length room.old) }
    ensures { Wrote room.old 0 (bytes (records_from 0 words.now)) room.new result }
{
    let mut at: usize = 0;
    for (address, &word) in words.iter().enumerate() {
        at = put(room, at, Address(address as u16), word);
    }
    at
}

// Writes the image of a memory into a lent room, whose bytes past it stay as found. Gives its length.
#[tactic(auto, unfolding(crate::specs::Image::writing))]
pub fn write(memory: &[u16], room: &mut [u8]) -> Result<usize, Refusal>
    ensures { writing memory.now room.old ≡ record { answer = answered number result; length = result_unwrap_or result 0; room = room.new } }
{
    if memory.len() != WORDS {
        return Err(Refusal::WrongSize);
    }
    if room.len() < LONGEST {
        return Err(Refusal::RoomTooSmall);
    }
    Ok(put_all(&memory[..usize::from(RECORDED)], room))
}
