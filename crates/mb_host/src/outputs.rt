ghost use Rattle.std.specs.Prelude.{◌≡◌, ◌<◌, None};

use crate::faults::count_fault;
use mb_edge::{Failed, Sink};
use std::io::Write;

/// Standard output, or any other writer, as a sink. It tells none of its bytes. Each error of the writer is a
/// fault, and so is a piece of which it takes nothing.
#[derive(Drop)]
pub struct OutSink<W: Write + Drop> {
    writer: W,
    faults: u64,
}

impl<W: Write + Drop> OutSink<W> {
    /// Begins without a fault.
    pub fn new(writer: W) -> OutSink<W>
        ensures { ⟦<OutSink<W> as Sink>⟧.faults result ≡ 0 }
    {
        OutSink { writer, faults: 0 }
    }
}

impl<W: Write + Drop> Sink for OutSink<W> {
    ghost taken = { λ _. None };

    ghost faults = { λ sink. sink.faults };

    fn write(&mut self, from: &[u8]) -> Result<usize, Failed> {
        match self.writer.write(from) {
            Ok(count) if count > 0 || from.is_empty() => Ok(count),
            _ => Err(count_fault(&mut self.faults)),
        }
    }
}
