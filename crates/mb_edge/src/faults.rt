use std::error::Error;
use std::fmt;

/// The outside did not do what it was asked to. An object of the outside counts its faults, and answers this
/// only where that count rose in the same call.
#[derive(Clone, Copy, Debug, PartialEq, Eq, Drop)]
pub struct Failed;

impl fmt::Display for Failed {
    fn fmt<W: fmt::Write>(&self, f: &mut fmt::Formatter<W>) -> fmt::Result {
        f.write_str("the device failed")
    }
}

impl Error for Failed {}
