use std::alloc::{AllocError, Global};

/// What a core answered, event after event: a line for each but for a gathering that was done and a page that was written,
/// of which there are as many as the file system has blocks to look at. A line has the letter of the caller, or `-` for none.
#[derive(Drop)]
pub struct EventNotes {
    alloc: Global,
    lines: String,
    /// Whether a line was lost for want of memory.
    lost: bool,
    /// How many times a call of each caller was answered.
    answered: [u32; 8],
    /// How many events the disk failed.
    failed: u32,
}

impl EventNotes {
    pub fn new(alloc: Global) -> EventNotes {
        EventNotes {
            alloc,
            lines: String::new(alloc),
            lost: false,
            answered: [0; 8],
            failed: 0,
        }
    }

    /// The lines, where none was lost.
    pub fn lines(&self) -> Option<&str> {
        if self.lost {
            return None;
        }
        Some(self.lines.as_str())
    }

    pub fn answered(&self) -> [u32; 8] {
        self.answered
    }

    pub fn failed(&self) -> u32 {
        self.failed
    }

    /// A call of a caller was answered.
    pub fn answer(&mut self, caller: u8) {
        if let Some(count) = self.answered.get_mut(usize::from(caller)) {
            *count = count.saturating_add(1);
        }
    }

    /// The disk failed an event.
    pub fn fail(&mut self) {
        self.failed = self.failed.saturating_add(1);
    }

    /// A line of an event that no caller makes.
    pub fn add(&mut self, text: &str) {
        if self.push(text).is_err() {
            self.lost = true;
        }
    }

    /// A line of an event of a caller, or of none.
    pub fn add_of(&mut self, caller: Option<u8>, text: &str) {
        if self.push_of(caller, text).is_err() {
            self.lost = true;
        }
    }

    /// Such a line with a number behind it.
    pub fn add_number(&mut self, caller: Option<u8>, text: &str, number: u32) {
        if self.push_number(caller, text, number).is_err() {
            self.lost = true;
        }
    }

    fn push(&mut self, text: &str) -> Result<(), AllocError> {
        self.lines.push_str(text)?;
        self.lines.push_str("\n")
    }

    fn push_of(&mut self, caller: Option<u8>, text: &str) -> Result<(), AllocError> {
        let letter = letter_of(caller);
        let line = format!(in self.alloc; "{letter} {text}\n")?;
        self.lines.push_str(line.as_str())
    }

    fn push_number(
        &mut self,
        caller: Option<u8>,
        text: &str,
        number: u32,
    ) -> Result<(), AllocError> {
        let letter = letter_of(caller);
        let line = format!(in self.alloc; "{letter} {text} {number}\n")?;
        self.lines.push_str(line.as_str())
    }
}

/// The letter of a caller, `a` to `h`.
fn letter_of(caller: Option<u8>) -> char {
    match caller {
        Some(0) => 'a',
        Some(1) => 'b',
        Some(2) => 'c',
        Some(3) => 'd',
        Some(4) => 'e',
        Some(5) => 'f',
        Some(6) => 'g',
        Some(7) => 'h',
        _ => '-',
    }
}
