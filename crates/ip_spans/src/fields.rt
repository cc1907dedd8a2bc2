//! How the structs of C are stored.
ghost use Rattle.std.specs.Prelude.{◌≡◌};

/// A struct of plain fields that the caller owns.
pub trait Fields: Sized {
    /// Stores the fields here one by one, so that the padding between them isn't moved.
    fn put(&mut self, fields: Self)
        ensures { self.new ≡ fields };
}
