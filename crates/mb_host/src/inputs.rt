ghost use Rattle.std.specs.Prelude.{◌≡◌, None};

use crate::faults::count_fault;
use mb_edge::{Failed, Source};
use std::io::Read;

/// Standard input, or any other reader, as a source. It tells none of its bytes. Each error of the reader is
/// a fault.
#[derive(Drop)]
pub struct InSource<R: Read + Drop> {
    reader: R,
    faults: u64,
}

impl<R: Read + Drop> InSource<R> {
    /// Begins without a fault.
    pub fn new(reader: R) -> InSource<R>
        ensures { ⟦<InSource<R> as Source>⟧.faults result ≡ 0 }
    {
        InSource { reader, faults: 0 }
    }
}

impl<R: Read + Drop> Source for InSource<R> {
    ghost left = { λ _. None };

    ghost faults = { λ source. source.faults };

    fn read(&mut self, into: &mut [u8]) -> Result<usize, Failed> {
        match self.reader.read(into) {
            Ok(count) => Ok(count),
            Err(_) => Err(count_fault(&mut self.faults)),
        }
    }
}
