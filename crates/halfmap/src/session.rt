//! Lines in, answers out.
ghost use Rattle.std.specs.Prelude.{[], Some, OnOk, IfOk};
ghost use Rattle.std.specs.Io.Buffered.{reader_remaining as unread, reader_buffer, writer_contents as written, writer_buffer};
ghost use Rattle.std.specs.Io.KnownBytes.{Keeps};
ghost use Rattle.halfmap.specs.Answer.{AnswersLine};
ghost use Rattle.halfmap.specs.Line.{IsTextOfLine, IsWithout};
ghost use Rattle.halfmap.specs.Reading.{IsOut};
ghost use Rattle.halfmap.specs.Session.{Serves, ServesFromEmpty, WritesAnswer, HashBuilder};

use crate::answer::{Answer, Numbers, perform};
use crate::lines::{KEPT_BYTES, read_line};
use crate::request::parse;
use std::alloc::Global;
use std::io;
use std::io::{BufReader, BufWriter, Read, Write};

/// The work ended before the input did: a read, a write or the memory for a buffer failed.
#[derive(Debug, PartialEq, Eq, Drop)]
pub struct Stopped;

impl From<io::Error> for Stopped {
    fn from(_error: io::Error) -> Stopped {
        Stopped
    }
}

/// Answers each line of the reader by a line to the writer, until the input ends, and returns the writer.
///
/// All answers are written out before a read that may have to wait, so a sender that waits for an answer gets it. The map
/// begins empty. A line may have any length: of a long one only the first bytes are kept.
pub fn serve<R: Read + Drop, W: Write + Drop>(
    alloc: Global,
    reader: R,
    writer: W,
) -> Result<W, Stopped>
    ensures { IfOk result (λ returned.
        ServesFromEmpty HashBuilder (R.remaining reader) (W.contents writer) (W.contents returned)) }
{
    let mut reader = BufReader::new(alloc, reader)?;
    let mut writer = BufWriter::new(alloc, writer)?;
    let mut map = Numbers::new(alloc);
    answer_lines(alloc, &mut map, &mut reader, &mut writer)?;
    match writer.into_inner() {
        Ok(writer) => Ok(writer),
        Err(_) => Err(Stopped),
    }
}

/// Answers the lines of a text in memory. What is read and written is known there, so the contract says all of it.
pub fn serve_text(alloc: Global, text: &[u8]) -> Result<Vec<u8>, Stopped>
    ensures { IfOk result (λ answers.
        ServesFromEmpty HashBuilder (Some text.now) (Some []) (Some answers.items)) }
{
    serve(alloc, text, Vec::new(alloc))
}

// Answers each line of the reader by the map, until the input ends.
fn answer_lines<R: Read, W: Write + Drop>(
    alloc: Global,
    map: &mut Numbers,
    reader: &mut BufReader<R>,
    writer: &mut BufWriter<W>,
) -> Result<(), Stopped>
    ensures { OnOk result (Serves (unread R.remaining reader.old) map.old map.new
        (written W.contents writer.old) (written W.contents writer.new)) }
{
    let mut line = Vec::with_capacity(alloc, KEPT_BYTES).ok().ok_or(Stopped)?;
    for _ in 0..u64::MAX {
        write_before_waiting(reader, writer)?;
        if !read_line(reader, &mut line, writer)? {
            return Ok(());
        }
        answer_line(map, line.as_slice(), writer)?;
    }
    Err(Stopped)
}

// Writes out the answers, unless the next line is there already.
fn write_before_waiting<R: Read, W: Write + Drop>(
    reader: &BufReader<R>,
    writer: &mut BufWriter<W>,
) -> io::Result<()>
    ensures kept { Keeps (written W.contents writer.old) (written W.contents writer.new) }
    ensures out { OnOk result (IsOut (reader_buffer reader.now) (writer_buffer writer.new)) }
{
    if reader.buffer().contains(&b'\n') {
        return Ok(());
    }
    writer.flush()
}

// Answers a line, given with its end, by a line to the writer.
fn answer_line<W: Write + Drop>(
    map: &mut Numbers,
    line: &[u8],
    writer: &mut BufWriter<W>,
) -> io::Result<()>
    ensures { OnOk result (WritesAnswer line.now map.old map.new
        (written W.contents writer.old) (written W.contents writer.new)) }
{
    writeln!(writer, "{}", reply(map, line))
}

// Answers a line, given with its end.
fn reply(map: &mut Numbers, line: &[u8]) -> Answer
    ensures { AnswersLine line.now map.old result map.new }
{
    match parse(without_end(line)) {
        Some(request) => perform(map, request),
        None => Answer::BadLine,
    }
}

// The line without a LF at its end, and then without a CR.
fn without_end(line: &[u8]) -> &[u8]
    ensures { IsTextOfLine line.now result.now }
{
    without(b"\r", without(b"\n", line))
}

// The text without this end, if it has it.
fn without<'a>(end: &[u8], text: &'a [u8]) -> &'a [u8]
    ensures { IsWithout end.now text.now result.now }
{
    match text.strip_suffix(end) {
        Some(front) => front,
        None => text,
    }
}
