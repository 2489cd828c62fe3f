//! IDs in order, however they are kept.
ghost use Rattle.std.specs.Prelude.{◌≡◌, ◌<◌, ◌==◌, ℕ, [], ◌∷◌, ◌++◌, length, position, slice_index_or};
ghost use Rattle.std.specs.List.{remove};
ghost use Rattle.axi_checker.specs.Monitors.{OpenSide};

/// IDs in order, the oldest first, with room for so many. All room is taken when they are made.
pub trait Ids: Drop {
    /// The IDs, and for how many there is room.
    ghost side: { Self → OpenSide ℕ };

    /// The place of the oldest that is this one.
    fn first(&self, id: u8) -> Option<usize>
        ensures { result ≡ position (λ other. other == id) (side self.now).items };

    /// Appends one, for which there is room.
    fn push(&mut self, id: u8)
        requires { length (side self.old).items < (side self.old).room }
        ensures items { (side self.new).items ≡ (side self.old).items ++ id ∷ [] }
        ensures room { (side self.new).room ≡ (side self.old).room };

    /// Takes out the one at a place, and answers it.
    fn remove(&mut self, place: usize) -> u8
        requires { place < length (side self.old).items }
        ensures value { result ≡ slice_index_or (side self.old).items place result }
        ensures items { (side self.new).items ≡ remove (side self.old).items place }
        ensures room { (side self.new).room ≡ (side self.old).room };

    /// None any more.
    fn clear(&mut self)
        ensures { side self.new ≡ record (side self.old) { items = [] } };
}
