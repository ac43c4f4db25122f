ghost use Rattle.std.specs.Prelude.{◌≡◌, not, is_some, Option};
ghost use Rattle.std.specs.Option.{option_map};
ghost use Rattle.cells.specs.Laws.{Lawful};

// A kind of cells.
pub trait Nullable: Copy + Default {
    type Wrapped: Copy;

    // the weight of a cell, or none
    ghost means: { Self → Option Self.Wrapped };

    // the cell that means nothing
    ghost empty: { Self };

    // the cell that holds a weight, or none where the kind can't hold it
    ghost holding: { Self.Wrapped → Option Self };

    fn new(value: Self::Wrapped) -> Option<Self>
        ensures { result ≡ holding value };

    fn as_ref(&self) -> Option<&Self::Wrapped>
        ensures { option_map (λ x. x.now) result ≡ means self.now };

    fn is_null(&self) -> bool
        ensures { result ≡ not (is_some (means self.now)) };

    ghost lawful: { Lawful means empty holding };

    ghost default_is_empty: { (x : Self) → Self.Default.is_default x → x ≡ empty };
}
