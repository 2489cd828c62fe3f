//! The line at which a script stopped.
ghost use Rattle.std.specs.Prelude.{◌≡◌, ◌≤◌, [], length};
ghost use Rattle.script_text.specs.Stops.{held_of};

use arrayvec::ArrayVec;
use std::marker::Model;

/// The most bytes that are held: one more than a line may have.
const HELD_BYTES: usize = 129;

/// As much of a line as is held.
fn front_of(line: &[u8]) -> &[u8]
    ensures front { result.now ≡ held_of line.now }
    ensures short { length result.now ≤ 129 }
{
    if line.len() > HELD_BYTES {
        return &line[..HELD_BYTES];
    }
    line
}

/// The line at which a script stopped, without its line end; of one that is too long the first 129 bytes.
#[derive(Drop)]
pub struct StoppedLine {
    bytes: ArrayVec<u8, 129>,
}

impl Model for StoppedLine {
    ghost use Rattle.std.specs.Prelude.{ℕ, List};

    ghost Value = { List ℕ };

    ghost view = { λ l. l.bytes.items };
}

impl StoppedLine {
    /// No line.
    pub fn new() -> StoppedLine
        ensures { result ≡ [] }
    {
        StoppedLine {
            bytes: ArrayVec::new(),
        }
    }

    /// Its bytes.
    pub fn bytes(&self) -> &[u8]
        ensures { result.now ≡ self.now }
    {
        self.bytes.as_slice()
    }

    /// Forgets it.
    pub(crate) fn clear(&mut self)
        ensures { self.new ≡ [] }
    {
        self.bytes.clear();
    }

    /// Holds a line in its place.
    pub(crate) fn hold(&mut self, line: &[u8])
        ensures { self.new ≡ held_of line.now }
    {
        let front = front_of(line);
        self.bytes.clear();
        self.bytes.try_extend_from_slice(front).unwrap();
    }
}
