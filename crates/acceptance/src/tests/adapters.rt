//! Readers and writers of std behind `FromReader` and `ToWriter`: how often they are called, and what is
//! answered after a failure.
ghost use Rattle.std.specs.Prelude.{◌≡◌, IfOk};

use crate::tests::equal::is_equal;
use digits_core::{Failed, FromReader, Sink, Source, ToWriter};
use std::io::{self, ErrorKind, Read, Write};
use std::process::Abort;
use std::test::Fail;

// What is answered where the third call of the reader or the writer fails.
const ANSWERS: &[Result<usize, Failed>] = &[Ok(1), Ok(1), Err(Failed), Err(Failed), Err(Failed)];

/// Counts its calls, of which one fails.
#[derive(Drop)]
struct Failing {
    calls: usize,
    fails_at: usize,
}

impl Failing {
    fn call(&mut self, count: usize) -> io::Result<usize>
        ensures { IfOk result (λ n. n ≡ count) }
    {
        self.calls = self.calls.saturating_add(1);
        if self.calls == self.fails_at {
            return Err(io::Error::from(ErrorKind::Interrupted));
        }
        Ok(count)
    }
}

impl Read for Failing {
    fn read(&mut self, buf: &mut [u8]) -> io::Result<usize> {
        self.call(buf.len().min(1))
    }
}

impl Write for Failing {
    fn write(&mut self, buf: &[u8]) -> io::Result<usize> {
        self.call(buf.len().min(1))
    }

    fn flush(&mut self) -> io::Result<()> {
        Ok(())
    }
}

/// That a call has this answer.
fn is_answered<R: Abort>(rt: &R, found: Result<usize, Failed>, wanted: Result<usize, Failed>) {
    is_equal(rt, found, wanted);
}

#[test]
fn a_reader_is_read_once_a_call_until_it_fails(rt: HostRuntime) -> Result<(), Fail> {
    let mut reader = Failing {
        calls: 0,
        fails_at: 3,
    };
    let mut source = FromReader::new(&mut reader);
    let mut buffer = [0; 4];
    for &answer in ANSWERS {
        is_answered(&rt, source.read(&mut buffer), answer);
    }
    is_equal(&rt, reader.calls, 3);
    Ok(())
}

#[test]
fn a_writer_is_written_to_once_a_call_until_it_fails(rt: HostRuntime) -> Result<(), Fail> {
    let mut sink = ToWriter::new(Failing {
        calls: 0,
        fails_at: 3,
    });
    for &answer in ANSWERS {
        is_answered(&rt, sink.write(b"0"), answer);
    }
    is_answered(&rt, sink.write(b""), Err(Failed));
    is_equal(&rt, sink.into_inner().calls, 3);
    Ok(())
}
