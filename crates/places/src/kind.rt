// What the kinds of place share. Whoever can name the trait can open a place and make one, so its module is this crate's own.
ghost use Rattle.std.specs.Prelude.{◌≡◌, ℕ};

// A kind of place.
pub trait Kind: Copy {
    // What lies at its places.
    type Item: Copy;

    ghost index: { Self → ℕ };

    // What a list is said to hold past its end.
    ghost past_end: { Self.Item };

    fn new(i: usize) -> Self
        ensures { index result ≡ i };

    fn index(self) -> usize
        ensures { result ≡ index self };
}
