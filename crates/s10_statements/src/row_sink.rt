/// Takes the rows of a table, one after another, while they are read.
pub trait RowSink<T> {
    ghost use Rattle.std.specs.Prelude.{List, [], ◌∷◌, ◌++◌};

    /// The first sink, once it took these rows in their order, is the second one.
    ghost has_taken: { Self → List T → Self → Type 0 };

    /// Takes the next row.
    fn take(&mut self, row: T)
        ensures { (start : Self) (rows : List T) → has_taken start rows self.old
            → has_taken start (rows ++ row ∷ []) self.new };

    /// A sink that took no row is as it was.
    ghost none: { (start : Self) → has_taken start [] start };
}
