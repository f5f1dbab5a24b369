//! Lines out of a source, one at a time.
ghost use Rattle.std.specs.Prelude.{◌≡◌, ◌≢◌, ℕ, List, ◌+◌, ◌<◌, ◌≤◌, ◌==◌, nat_le, if◌then◌else◌, [], ◌∷◌, ◌++◌, true, false, length, take, Ok, Err, IfOk, IfErr, OnOk, OnErr, IfSome};
ghost use Rattle.std.specs.Str.Lines.{strip_carriage_return};
ghost use Rattle.std.specs.Io.KnownBytes.{IsAtEnd};
ghost use Rattle.io_face.specs.Fault.{HasFaulted};
ghost use Rattle.io_face.specs.Source.{Takes, TakesAtMost};
ghost use Rattle.line_reader.specs.Limits.{line_limit, input_limit};
ghost use Rattle.line_reader.specs.Lines.{IsUnended};

use io_face::Source;
use memchr::memchr;
use std::alloc::{AllocError, Global};
use std::marker::Model;

/// The greatest length of a line, without its newline and the one carriage return before it.
const LINE_LIMIT: usize = 65_536;

/// The greatest length of the input.
const INPUT_LIMIT: usize = 67_108_864;

const BUFFER_SIZE: usize = 4096;

/// What came.
#[derive(Clone, Copy, Debug, PartialEq, Eq)]
pub enum Next {
    /// A line and its newline.
    Line,
    /// The last line, which no newline ends.
    LastLine,
    /// The end of the input.
    End,
}

/// Why no line came.
#[derive(Clone, Copy, Debug, PartialEq, Eq)]
pub enum ReadStop {
    ReadFault,
    TooLong,
    Memory,
}

impl From<AllocError> for ReadStop {
    ghost use Rattle.std.specs.Prelude.{◌≡◌};
    ghost use Rattle.line_reader.specs.declared.line_reader.ReadStop.TheVariants.{Memory};

    ghost from_gives = { λ _ stop. stop ≡ Memory };

    fn from(_error: AllocError) -> ReadStop {
        ReadStop::Memory
    }
}

/// Keeps what was read behind the last line that it gave. Contracts see those bytes, and how many
/// more may be read.
#[derive(Drop)]
pub struct LineReader {
    buffer: Vec<u8>,
    start: usize,
    end: usize,
    room: usize,
}

impl Model for LineReader {
    ghost use Rattle.std.specs.Prelude.{◌≤◌, ◌<◌, ◌-◌, take, drop, length};
    ghost use Rattle.line_reader.specs.Reading.{Buffered};

    ghost Value = { Buffered };

    ghost view = { λ r. record { held = drop r.start (take r.end r.buffer.items); room = r.room } };

    ghost invariant = { λ r. (r.start ≤ r.end) × (r.end ≤ length r.buffer.items)
        × (0 < length r.buffer.items) };
}

impl LineReader {
    ghost use Rattle.line_reader.specs.Reading.{HoldsLine, IsTooLong, allowance, rest_of, GivesLine, GivesLastLine, GivesNothing, LosesPart};

    /// Nothing is read yet, and an input of the greatest length may be.
    pub fn new(alloc: Global) -> Result<LineReader, AllocError>
        ensures held { IfOk result (λ reader. reader.held ≡ []) }
        ensures room { IfOk result (λ reader. reader.room ≡ input_limit) }
    {
        Ok(LineReader {
            buffer: vec![in alloc; 0; BUFFER_SIZE]?,
            start: 0,
            end: 0,
            room: INPUT_LIMIT,
        })
    }

    /// Moves what is held of the line, and returns whether its newline was held too.
    fn move_held(&mut self, line: &mut Vec<u8>) -> Result<bool, AllocError>
        ensures ended { result ≡ Ok true → (piece : List ℕ) × IsUnended piece
            × (self.old.held ≡ piece ++ 10 ∷ self.new.held)
            × (line.new.items ≡ line.old.items ++ piece) }
        ensures unended { result ≡ Ok false → IsUnended self.old.held
            × (self.new.held ≡ []) × (line.new.items ≡ line.old.items ++ self.old.held) }
        ensures room { self.new.room ≡ self.old.room }
    {
        let held = &self.buffer[self.start..self.end];
        match memchr(b'\n', held) {
            Some(count) => {
                line.extend_from_slice(&held[..count])?;
                self.start += count + 1;
                Ok(true)
            }
            None => {
                line.extend_from_slice(held)?;
                self.start = self.end;
                Ok(false)
            }
        }
    }

    /// Reads more where nothing is held, at least one byte. False at the end of the input.
    fn fill<I: Source>(&mut self, input: &mut I) -> Result<bool, ReadStop>
        requires { self.old.held ≡ [] }
        ensures more { result ≡ Ok true → Takes (I.left input.old) (I.left input.new) self.new.held
            × (0 < length self.new.held) × (allowance self.new ≡ allowance self.old) }
        ensures end { result ≡ Ok false → IsAtEnd (I.left input.old)
            × (I.left input.new ≡ I.left input.old) }
        ensures read_fault { result ≡ Err ReadStop.ReadFault → (I.left input.new ≡ I.left input.old)
            × HasFaulted (I.faults input.old) (I.faults input.new) }
        ensures too_long { result ≡ Err ReadStop.TooLong → (self.old.room ≡ 0)
            × IfSome (I.left input.old) (λ left. 0 < length left) }
        ensures no_memory { result ≢ Err ReadStop.Memory }
        ensures taken { TakesAtMost (self.old.room + 1) (I.left input.old) (I.left input.new) }
        ensures count { I.faults input.old ≤ I.faults input.new }
        ensures sound { OnOk result (I.faults input.new ≡ I.faults input.old) }
    {
        if self.room == 0 {
            return probe(input);
        }
        let most = self.buffer.len().min(self.room);
        let count = read_front(input, &mut self.buffer, most)?;
        self.start = 0;
        self.end = count;
        self.room -= count;
        Ok(count > 0)
    }

    /// Reads the next line into `line`, without its newline and the one carriage return before it.
    /// After an `Err` what was read of a line is lost. While a whole line is held nothing is read.
    pub fn next_line<I: Source>(
        &mut self,
        input: &mut I,
        line: &mut Vec<u8>,
    ) -> Result<Next, ReadStop>
        ensures line { result ≡ Ok Next.Line
            → GivesLine self.old (I.left input.old) self.new (I.left input.new) line.new.items }
        ensures last_line { result ≡ Ok Next.LastLine
            → GivesLastLine self.old (I.left input.old) (I.left input.new) line.new.items }
        ensures end { result ≡ Ok Next.End
            → GivesNothing self.old (I.left input.old) (I.left input.new) }

        ensures read_fault { result ≡ Err ReadStop.ReadFault
            → LosesPart self.old (I.left input.old) (I.left input.new)
            × HasFaulted (I.faults input.old) (I.faults input.new) }
        ensures too_long { result ≡ Err ReadStop.TooLong
            → IfSome (rest_of self.old (I.left input.old)) (IsTooLong (allowance self.old)) }
        ensures taken { TakesAtMost (self.old.room + 1) (I.left input.old) (I.left input.new) }
        ensures count { I.faults input.old ≤ I.faults input.new }
        ensures sound { OnOk result (I.faults input.new ≡ I.faults input.old) }
        ensures held { HoldsLine self.old → input.new ≡ input.old }
    {
        line.clear();
        'reading: loop {
            let is_ended = self.move_held(line)?;
            let len = stripped_len(line);
            if len > LINE_LIMIT {
                return Err(ReadStop::TooLong);
            }
            if is_ended {
                line.truncate(len);
                return Ok(Next::Line);
            }
            if !self.fill(input)? {
                return last_line(line);
            }
        }
    }
}

/// Reads at most this number of bytes, one or more, into the front of the buffer. Zero at the end
/// of the input.
fn read_front<I: Source>(input: &mut I, buffer: &mut [u8], most: usize) -> Result<usize, ReadStop>
    requires some { 0 < most }
    requires room { most ≤ length buffer.old }
    ensures within { IfOk result (λ n. n ≤ most) }
    ensures taken { IfOk result (λ n.
        Takes (I.left input.old) (I.left input.new) (take n buffer.new)) }
    ensures end { IfOk result (λ n. n ≡ 0 → IsAtEnd (I.left input.old)) }
    ensures read_fault { OnErr result ((I.left input.new ≡ I.left input.old)
        × HasFaulted (I.faults input.old) (I.faults input.new)) }
    ensures only_read_fault { IfErr result (λ stop. stop ≡ ReadStop.ReadFault) }
    ensures few { TakesAtMost most (I.left input.old) (I.left input.new) }
    ensures count { I.faults input.old ≤ I.faults input.new }
    ensures sound { OnOk result (I.faults input.new ≡ I.faults input.old) }
{
    match input.read(&mut buffer[..most]) {
        Ok(count) => Ok(count),
        Err(_) => Err(ReadStop::ReadFault),
    }
}

/// Tries one byte behind the greatest length of the input. False at the end of the input.
fn probe<I: Source>(input: &mut I) -> Result<bool, ReadStop>
    ensures end { IfOk result (λ more. (more ≡ false) × IsAtEnd (I.left input.old)
        × (I.left input.new ≡ I.left input.old)) }
    ensures read_fault { result ≡ Err ReadStop.ReadFault → (I.left input.new ≡ I.left input.old)
        × HasFaulted (I.faults input.old) (I.faults input.new) }
    ensures too_long { result ≡ Err ReadStop.TooLong
        → IfSome (I.left input.old) (λ left. 0 < length left) }
    ensures no_memory { result ≢ Err ReadStop.Memory }
    ensures few { TakesAtMost 1 (I.left input.old) (I.left input.new) }
    ensures count { I.faults input.old ≤ I.faults input.new }
    ensures sound { OnOk result (I.faults input.new ≡ I.faults input.old) }
{
    let mut byte = [0u8; 1];
    match input.read(&mut byte) {
        Ok(0) => Ok(false),
        Ok(_) => Err(ReadStop::TooLong),
        Err(_) => Err(ReadStop::ReadFault),
    }
}

/// How long the line is without the one carriage return at its end.
fn stripped_len(line: &[u8]) -> usize
    ensures { result ≡ length (strip_carriage_return line.now) }
{
    match line {
        [.., b'\r'] => line.len() - 1,
        _ => line.len(),
    }
}

/// What a line is that the end of the input ends.
fn last_line(line: &[u8]) -> Result<Next, ReadStop>
    ensures { result ≡ (if length line.now == 0 then Ok Next.End else
        (if nat_le (length line.now) line_limit then Ok Next.LastLine else Err ReadStop.TooLong)) }
{
    match line.len() {
        0 => Ok(Next::End),
        1..=LINE_LIMIT => Ok(Next::LastLine),
        _ => Err(ReadStop::TooLong),
    }
}
