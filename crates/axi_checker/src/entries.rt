//! Entries in order, however they are kept.
ghost use Rattle.std.specs.Prelude.{◌≡◌, ◌<◌, ◌≤◌, [], ◌∷◌, ◌++◌, length, slice_index_or, slice_set};
ghost use Rattle.std.specs.List.{remove};
ghost use Rattle.axi_checker.specs.Monitors.{OpenSide};

/// Entries in order, the oldest first, with room for so many, at most 8,192. All room is taken when they are made.
pub trait Entries<T>: Drop {
    /// The entries, and for how many there is room.
    ghost side: { Self → OpenSide T };

    /// How many there are.
    fn len(&self) -> usize
        ensures count { result ≡ length (side self.now).items }
        ensures most { result ≤ 8192 };

    /// The one at a place.
    fn get(&self, place: usize) -> T
        requires { place < length (side self.now).items }
        ensures value { result ≡ slice_index_or (side self.now).items place result }
        ensures few { length (side self.now).items ≤ (side self.now).room };

    /// Appends one, for which there is room.
    fn push(&mut self, entry: T)
        requires { length (side self.old).items < (side self.old).room }
        ensures items { (side self.new).items ≡ (side self.old).items ++ entry ∷ [] }
        ensures room { (side self.new).room ≡ (side self.old).room };

    /// Puts another in the place of one.
    fn put(&mut self, place: usize, entry: T)
        requires { place < length (side self.old).items }
        ensures items { (side self.new).items ≡ slice_set (side self.old).items place entry }
        ensures room { (side self.new).room ≡ (side self.old).room };

    /// Takes out the one at a place.
    fn remove(&mut self, place: usize)
        requires { place < length (side self.old).items }
        ensures items { (side self.new).items ≡ remove (side self.old).items place }
        ensures room { (side self.new).room ≡ (side self.old).room };

    /// None any more.
    fn clear(&mut self)
        ensures { side self.new ≡ record (side self.old) { items = [] } };
}
