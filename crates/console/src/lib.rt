// What the two programs share: standard input read to its end, the texts that they print as bytes in a lent room, and standard output.
#![tactic(auto)]

ghost use Rattle.std.specs.Prelude.{◌≡◌, ◌++◌, ◌+◌, ◌*◌, length, MatchResult};
ghost use Rattle.text.specs.Decimal.{decimal};
ghost use Rattle.console.specs.Text.{signed, counts, registers, line, lines, refusal as text_refusal, report as text_report};
ghost use Rattle.console.specs.Code.Shown.{shown};
ghost use Rattle.io.specs.Counts.{IsPrefixLen};

use std::fs::OpenFile;
use std::io::{Error, ErrorKind, Read, Write};
use std::os::fd::AsFd;
use std::process::ExitCode;
use std::{fmt, fs};
use word::Address;

// The room that every text fits into.
const ROOM: usize = 512;

// The name by which a process opens what its standard output goes to.
const OUTPUT: &str = "/dev/stdout";

// What the report of a run tells beside the log's words. The answer is document 01's number, since it is printed.
#[derive(Clone, Copy)]
pub struct Run {
    pub answer: u32,
    pub done: u32,
    pub cycles: u64,
    pub cp: Address,
    pub pp: Address,
    pub ac: u16,
    pub count: usize,
}

// A system's error in the system's words, without the number that std puts behind them.
#[derive(Clone, Copy)]
struct Reason {
    error: Error,
}

impl fmt::Display for Reason {
    fn fmt<W: fmt::Write>(&self, f: &mut fmt::Formatter<W>) -> fmt::Result {
        let mut room = [0u8; 256];
        let mut rest: &mut [u8] = &mut room;
        let _ = write!(rest, "{}", self.error);
        let left = rest.len();
        let text = str::from_utf8(&room[..256usize.saturating_sub(left)]).unwrap_or("");
        match text.split_once(" (os error ") {
            Some((words, _)) => write!(f, "{words}"),
            None => write!(f, "{text}"),
        }
    }
}

// A read that failed, and the bytes that were read before it.
#[derive(Clone, Copy)]
struct Failed {
    error: Error,
    count: usize,
}

// An input up to its end, or as much of it as the buffer holds: how many bytes stand at the buffer's front, of a read that fails too.
// No range: what is counted is the bytes that each read gives.
fn read_all(reader: &mut impl Read, buffer: &mut [u8]) -> Result<usize, Failed>
    ensures counted { MatchResult result (λ n. IsPrefixLen n buffer.new) (λ failed. IsPrefixLen failed.count buffer.new) }
    ensures kept { length buffer.new ≡ length buffer.old }
{
    let mut done: usize = 0;
    while done < buffer.len() {
        let count = reader
            .read(&mut buffer[done..])
            .map_err(|error| Failed { error, count: done })?;
        if count == 0 {
            break;
        }
        done += count;
    }
    Ok(done)
}

// Writes a text to standard output, and fails where bytes were lost. Of none, a closed output is told by the copy of its descriptor that cannot be made.
fn write_out(rt: &HostRuntime, text: &[u8]) -> std::io::Result<()> {
    let mut out = rt.stdout();
    if text.is_empty() {
        out.as_fd().try_clone_to_owned()?;
        return Ok(());
    }
    out.write_all(text)?;
    sync_out(rt)
}

// Syncs standard output where it is a file, since some systems say only then that bytes were lost. What cannot be opened by its name, or is no file to sync, stays as written.
fn sync_out(rt: &HostRuntime) -> std::io::Result<()> {
    let Ok(found) = fs::metadata(rt, OUTPUT) else {
        return Ok(());
    };
    if !found.is_file() {
        return Ok(());
    }
    let Ok(file) = fs::OpenOptions::new().write(true).open(rt, OUTPUT) else {
        return Ok(());
    };
    match file.sync_all() {
        Err(error)
            if matches!(
                error.kind(),
                ErrorKind::InvalidInput | ErrorKind::Unsupported
            ) => { Ok(()) }
        synced => synced,
    }
}

// A program as its streams know it: what it runs in, and the name that its errors are said with.
#[derive(Clone, Copy)]
pub struct Program<'a> {
    pub rt: &'a HostRuntime,
    pub name: &'a [u8],
}

impl Program<'_> {
    // Says on standard error that the program's stream failed, and why: one line, the name and the stream within 64 bytes. What standard error doesn't take is lost.
    fn say_failed(&self, stream: &[u8], error: Error) {
        let mut what = [0u8; 64];
        let at = text::put(&mut what, 0, self.name);
        let end = text::put(&mut what, at, stream);
        let reason = Reason { error };
        let mut out = self.rt.stderr();
        let _ = out.write_all(&what[..end]);
        let _ = writeln!(out, ": {reason}");
    }

    // Its input: `read_all` of standard input. A read that failed is said, and the bytes read before it are given.
    pub fn read_input(&self, buffer: &mut [u8]) -> Result<usize, usize>
        ensures counted { MatchResult result (λ n. IsPrefixLen n buffer.new) (λ n. IsPrefixLen n buffer.new) }
        ensures kept { length buffer.new ≡ length buffer.old }
    {
        let mut reader = self.rt.stdin();
        match read_all(&mut reader, buffer) {
            Ok(count) => Ok(count),
            Err(failed) => {
                self.say_failed(b": standard input", failed.error);
                Err(failed.count)
            }
        }
    }

    // Its output: `write_out`, with a failure said. Gives the status that the program ends with.
    pub fn print(&self, text: &[u8]) -> ExitCode {
        match write_out(self.rt, text) {
            Ok(()) => ExitCode::SUCCESS,
            Err(error) => {
                self.say_failed(b": standard output", error);
                ExitCode::FAILURE
            }
        }
    }
}

// A lent room, and the place behind what was put there.
// By hand: of a `write!` std's contracts say what is written where it is Ok, and not that it is Ok, as what is promised here needs.
#[derive(Drop)]
struct Page<'a> {
    room: &'a mut [u8],
    at: usize,
}

impl Page<'_> {
    ghost use Rattle.console.specs.Code.Page.{Puts};

    // Bytes as they are.
    fn bytes(&mut self, text: &[u8])
        ensures { Puts self.old text.now (length text.now) self.new }
    {
        self.at = text::put(self.room, self.at, text);
    }

    // A number in decimal, of at most 20 digits.
    fn decimal(&mut self, n: u64)
        ensures { Puts self.old (decimal n) 20 self.new }
    {
        let mut digits = [0u8; 20];
        let k = io::decimal(n, &mut digits);
        self.bytes(&digits[..k]);
    }

    // A label and a number.
    fn labelled(&mut self, label: &[u8], n: u64)
        ensures { Puts self.old (label.now ++ decimal n) (length label.now + 20) self.new }
    {
        self.bytes(label);
        self.decimal(n);
    }

    // A word as a signed number.
    #[tactic(auto, unfolding(crate::specs::Text::signed))]
    fn signed(&mut self, word: u16)
        ensures { Puts self.old (signed word) 21 self.new }
    {
        if word < 32768 {
            self.decimal(word as u64);
        } else {
            self.labelled(b"-", 65536 - word as u64);
        }
    }

    // The answer, the instructions done and the table's cycles.
    fn counts(&mut self, run: Run)
        ensures { Puts self.old (counts run) 81 self.new }
    {
        self.labelled(b"answer ", run.answer as u64);
        self.labelled(b" done ", run.done as u64);
        self.labelled(b" cycles ", run.cycles);
    }

    // The registers.
    fn registers(&mut self, run: Run)
        ensures { Puts self.old (registers run) 73 self.new }
    {
        self.labelled(b" cp ", run.cp.0 as u64);
        self.labelled(b" pp ", run.pp.0 as u64);
        self.bytes(b" ac ");
        self.signed(run.ac);
    }

    // The report's first line.
    fn line(&mut self, run: Run)
        ensures { Puts self.old (line run) 180 self.new }
    {
        self.counts(run);
        self.registers(run);
        self.labelled(b" log ", run.count as u64);
        self.bytes(b"\n");
    }

    // Each word on a line.
    fn lines(&mut self, words: &[u16])
        ensures { Puts self.old (lines words.now) (22 * length words.now) self.new }
    {
        for &word in words {
            self.signed(word);
            self.bytes(b"\n");
        }
    }
}

// The line of a refusal, with the control line where it names one.
#[tactic(auto, unfolding(crate::specs::Code::Shown::shown))]
pub fn refusal(answer: u32, line: Option<usize>, room: &mut [u8]) -> usize
    ensures { shown (text_refusal answer line) room.old ≡ record { length = result; room = room.new } }
{
    if room.len() < ROOM {
        return 0;
    }
    let mut page = Page { room, at: 0 };
    page.labelled(b"answer ", answer as u64);
    if let Some(line) = line {
        page.labelled(b" line ", line as u64);
    }
    page.bytes(b"\n");
    page.at
}

// The report of a run: its line, then each log word on a line.
#[tactic(auto, unfolding(crate::specs::Code::Shown::shown))]
pub fn report(run: Run, log: &[u16; 8], room: &mut [u8]) -> usize
    ensures { shown (text_report run log.now) room.old ≡ record { length = result; room = room.new } }
{
    if room.len() < ROOM {
        return 0;
    }
    let mut page = Page { room, at: 0 };
    page.line(run);
    page.lines(&log[..run.count.min(log.len())]);
    page.at
}
