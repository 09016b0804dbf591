// Standard output.
ghost use Rattle.std.specs.Prelude.{◌≡◌, ◌≤◌, length, IfOk};

use crate::faults::Faults;
use disk_model::{Sink, SinkFault};
use std::io;
use std::io::{ErrorKind, Write};

/// Standard output.
#[derive(Drop)]
pub struct PrintSink<'a, R> {
    rt: &'a R,
    faults: Faults,
}

impl<'a, R: Print> PrintSink<'a, R> {
    /// The standard output, which has not failed yet.
    pub fn new(rt: &'a R) -> PrintSink<'a, R>
        ensures { result.faults.count ≡ 0 }
    {
        PrintSink {
            rt,
            faults: Faults::new(),
        }
    }
}

/// Prints until the output has taken as many bytes as the piece has, and answers that number. It is an
/// error where the output takes none before that.
fn print_whole<R: Print>(rt: &R, piece: &[u8]) -> io::Result<usize>
    ensures { IfOk result (λ n. n ≡ length piece.now) }
{
    let mut out = io::writer(rt);
    let mut done = 0;
    while done < piece.len() {
        let put = out.write(&piece[done..])?;
        if put == 0 {
            return Err(ErrorKind::WriteZero.into());
        }
        done += put;
    }
    Ok(done)
}

impl<R: Print> Sink for PrintSink<'_, R> {
    ghost use Rattle.std.specs.Prelude.{[]};

    ghost tells = { ⊥ };

    ghost written = { λ _. [] };

    ghost faults = { λ sink. sink.faults.count };

    fn write(&mut self, piece: &[u8]) -> Result<(), SinkFault> {
        let answer = print_whole(self.rt, piece);
        match self.faults.note(answer) {
            Ok(_) => Ok(()),
            Err(_) => Err(SinkFault::Failed),
        }
    }
}
