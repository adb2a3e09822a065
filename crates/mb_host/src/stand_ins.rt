use std::fs::File;
use std::io;
use std::os::fd::AsRawFd;
use std::rt::Files;

/// What stands at those of descriptors 0 to 2 that were closed when the program started: the folder `/`,
/// opened for reading. So no file that is opened later can come to stand there. A folder can be neither read
/// nor written: a closed input gives input faults, a closed output gives output faults.
#[derive(Drop)]
pub struct StandIns {
    held: [Option<File>; 3],
}

impl StandIns {
    /// Takes the free ones of descriptors 0 to 2, until the value is dropped. It has to come before any other file
    /// is opened.
    ///
    /// # Errors
    ///
    /// Where the system does not open `/`; then none is taken.
    pub fn take<R: Files<File = File>>(files: &R) -> io::Result<StandIns> {
        let mut held = [None, None, None];
        for place in &mut held {
            // the system gives the least free descriptor
            let file = File::open(files, "/")?;
            if file.as_raw_fd() > 2 {
                break;
            }
            *place = Some(file);
        }
        Ok(StandIns { held })
    }
}
