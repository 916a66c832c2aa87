//! Lines that are served in memory, and a writer that fails at once.

use crate::session::{Stopped, serve, serve_text};
use std::io;
use std::io::Write;

const LINES: &str =
    "i 1 10\ni 2 20\ni 3 30\ni 4 40\ni 5 50\nf\ni 3 33\nf\ng 3\nr 1\nr 1\ng 9\nx\ni 6 60\nf\n";

const ANSWERS: &str =
    "none\nnone\nnone\nnone\nnone\nvec 5\nwas 30\nmap 5\n33\nwas 10\nnone\nnone\nbad line\nnone\nmap 5\n";

#[test]
fn a_full_vector(rt: HostRuntime) -> Result<(), Stopped> {
    let answers = serve_text(rt.alloc(), LINES.as_bytes())?;
    assert_eq!(rt; answers.as_slice(), ANSWERS.as_bytes());
    Ok(())
}

#[derive(Drop)]
struct Failing;

impl Write for Failing {
    fn write(&mut self, _buf: &[u8]) -> io::Result<usize> {
        Err(io::Error::from(io::ErrorKind::Other))
    }

    fn flush(&mut self) -> io::Result<()> {
        Ok(())
    }
}

#[test]
fn numbers_and_a_failed_write(rt: HostRuntime) -> Result<(), Stopped> {
    for (lines, wanted) in [
        ("", ""),
        ("i 1 18446744073709551616", "bad line\n"),
        ("i  1 2", "bad line\n"),
        (
            "i 01 007\r\ng 1\ng 000000000000000000001\n",
            "none\n7\nbad line\n",
        ),
    ] {
        let answers = serve_text(rt.alloc(), lines.as_bytes())?;
        assert_eq!(rt; answers.as_slice(), wanted.as_bytes(), "{lines:?}");
    }
    assert_eq!(rt;
        serve(rt.alloc(), b"f".as_slice(), Failing).err(),
        Some(Stopped)
    );
    Ok(())
}
