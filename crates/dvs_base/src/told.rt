// Histories: what a shelf gave and what a sink took. Only clauses read them; they take no memory.
ghost use Rattle.std.specs.Prelude.{◌≡◌, ℕ, List, [], ◌∷◌, ◌++◌, take};
ghost use Rattle.std.specs.Borrow.{ftrue};
ghost use Rattle.dvs_base.specs.Loaded.{Load};

use std::marker::Model;

/// The bytes that a sink took, in order.
#[derive(Drop)]
pub struct Taken {
    pub ghost bytes: { List ℕ },
}

impl Model for Taken {
    ghost also_owns = { λ _. ftrue };
}

impl Taken {
    /// No bytes.
    pub fn new() -> Taken
        ensures { result.bytes ≡ [] }
    {
        Taken {}
    }

    /// These bytes, and then the first `_count` bytes of the piece, or all of it if it has fewer.
    pub fn and_first(&self, _piece: &[u8], _count: usize) -> Taken
        ensures { result.bytes ≡ self.now.bytes ++ take _count _piece.now }
    {
        Taken {}
    }
}

/// The loads that a shelf answered with bytes, in order.
#[derive(Drop)]
pub struct Loaded {
    pub ghost loads: { List Load },
}

impl Model for Loaded {
    ghost also_owns = { λ _. ftrue };
}

impl Loaded {
    /// No loads.
    pub fn new() -> Loaded
        ensures { result.loads ≡ [] }
    {
        Loaded {}
    }

    /// These loads, and then that of a name that gave these bytes.
    pub fn and(&self, _name: &[u8], _room: u64, _bytes: &[u8]) -> Loaded
        ensures { result.loads ≡ self.now.loads ++ (_name.now, _room, _bytes.now) ∷ [] }
    {
        Loaded {}
    }
}
