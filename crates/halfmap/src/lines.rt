//! Reads lines of any length, and keeps of each no more than a request can have.
ghost use Rattle.std.specs.Prelude.{◌≡◌, ◌<◌, ◌↔◌, length, IfOk, OnErr, OnOk, IsTrue};
ghost use Rattle.std.specs.Io.Buffered.{reader_remaining as unread, reader_buffer, writer_buffer};
ghost use Rattle.halfmap.specs.Reading.{IsOut, with_more, IsPartOfLine, AddsPart, KeepsLine, KeepsBytes};

use crate::session::Stopped;
use std::alloc::AllocError;
use std::io;
use std::io::{BufRead, BufReader, BufWriter, ErrorKind, Read, Write};

// No request is longer than `i`, two numbers of 20 digits, two spaces and a line end of two bytes. Of a longer line no more
// is kept than shows that it is longer.
pub(crate) const KEPT_BYTES: usize = 46;

/// Stores the next line with its end, or the first bytes of one that is too long for a request, in place of the last line.
/// Returns false if the input has ended. On an error the bytes that were taken are stored in the same way.
///
/// It may have to wait for the line. By `_answers` the caller shows that no answer is held back meanwhile.
pub(crate) fn read_line<R: Read, W: Write + Drop>(
    reader: &mut BufReader<R>,
    line: &mut Vec<u8>,
    _answers: &BufWriter<W>,
) -> Result<bool, Stopped>
    requires { IsOut (reader_buffer reader.old) (writer_buffer _answers.now) }
    ensures line { OnOk result
        (KeepsLine (unread R.remaining reader.old) (unread R.remaining reader.new) line.new.items) }
    ensures more { IfOk result (λ more. IsTrue more ↔ 0 < length line.new.items) }
    ensures err { OnErr result
        (KeepsBytes (unread R.remaining reader.old) (unread R.remaining reader.new) line.new.items) }
{
    line.clear();
    // The bound only lets the prover see that the loop ends.
    for _ in 0..u64::MAX {
        if read_part(reader, line)? {
            return Ok(!line.is_empty());
        }
    }
    Err(Stopped)
}

// Takes what the reader has of the line, and adds it to what is kept. Returns true if the line, or the input, has
// ended.
fn read_part<R: Read>(reader: &mut BufReader<R>, line: &mut Vec<u8>) -> io::Result<bool>
    ensures { AddsPart (unread R.remaining reader.old) (unread R.remaining reader.new)
        line.old.items line.new.items result }
{
    let bytes = match reader.fill_buf() {
        Ok(bytes) => bytes,
        Err(error) if error.kind() == ErrorKind::Interrupted => return Ok(false),
        Err(error) => return Err(error),
    };
    let (len, ended) = part_of_line(bytes);
    keep(line, &bytes[..len])?;
    reader.consume(len);
    Ok(ended)
}

// How many of the bytes belong to the line, and whether they end it. No bytes are the end of the input.
fn part_of_line(bytes: &[u8]) -> (usize, bool)
    ensures { IsPartOfLine bytes.now result.0 result.1 }
{
    match bytes.iter().position(|byte| *byte == b'\n') {
        Some(at) => (at + 1, true),
        None => (bytes.len(), bytes.is_empty()),
    }
}

// Adds the bytes to the line, as far as they are kept.
fn keep(line: &mut Vec<u8>, bytes: &[u8]) -> Result<(), AllocError>
    ensures ok { OnOk result (line.new.items ≡ with_more line.old.items bytes.now) }
    ensures err { OnErr result (line.new.items ≡ line.old.items) }
{
    let more = bytes.len().min(KEPT_BYTES.saturating_sub(line.len()));
    line.extend_from_slice(&bytes[..more])
}
