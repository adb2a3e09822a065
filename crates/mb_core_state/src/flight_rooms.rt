ghost use Rattle.std.specs.Prelude.{◌≡◌, IfOk};

use mb_edge::NoMemory;
use mb_kinds::Call;
use std::alloc::Global;

/// The rooms of calls whose flights ended, one a caller, each for its caller's next flight. They are for speed alone: no
/// contract sees them.
pub(crate) struct FlightRooms {
    rooms: Vec<Vec<u8>>,
}

// written out, so that a core which is let go checks one call
impl Drop for FlightRooms {
    fn drop(self) {
        let FlightRooms { rooms: _ } = self;
    }
}

impl FlightRooms {
    /// An empty room for each of so many callers. The only error is want of memory.
    pub(crate) fn new(alloc: Global, callers: usize) -> Result<FlightRooms, NoMemory> {
        let mut rooms = Vec::new(alloc);
        for _ in 0..callers {
            rooms.push(Vec::new(alloc))?;
        }
        Ok(FlightRooms { rooms })
    }

    /// A copy of a call for its caller's flight, in the room of the caller's flight before. The only error is want of
    /// memory.
    pub(crate) fn copied(
        &mut self,
        alloc: Global,
        caller: u8,
        call: &Call,
    ) -> Result<Call, NoMemory>
        ensures { IfOk result (λ copy. copy ≡ call.now) }
    {
        let place = usize::from(caller);
        if place < self.rooms.as_slice().len() {
            Ok(call.copied_into(alloc, &mut self.rooms[place])?)
        } else {
            Ok(call.copied(alloc)?)
        }
    }

    /// Keeps the room of a call whose flight ended; needs no memory.
    pub(crate) fn keep(&mut self, caller: u8, call: Call) {
        let place = usize::from(caller);
        let Some(room) = call.into_room() else {
            return;
        };
        if place < self.rooms.as_slice().len() {
            self.rooms[place] = room;
        }
    }
}
