//! Answers are flushed: a writer may keep what it is given until then.

use hot_scripts::fault::RunFault;
use hot_scripts::streams::{write_answers, write_sections};
use std::io;
use std::io::{ErrorKind, Write};
use std::test::*;

/// A writer that takes all it is given, and fails to pass it on.
#[derive(Drop)]
struct Stuck {}

impl Write for Stuck {
    fn write(&mut self, buf: &[u8]) -> io::Result<usize> {
        Ok(buf.len())
    }

    fn flush(&mut self) -> io::Result<()> {
        Err(io::Error::from(ErrorKind::BrokenPipe))
    }
}

/// Where the writer can't be flushed, the answers of one script and those of several are not written.
#[test]
fn answers_that_stay_in_a_writer_are_not_written(rt: HostRuntime) {
    let mut writer = Stuck {};
    assert!(rt; matches!(write_answers(&mut writer, b"none\n"), Err(RunFault::Write)));
    assert!(rt; matches!(write_sections(&mut writer, &[]), Err(RunFault::Write)));
}
