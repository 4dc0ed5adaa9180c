// What a value may be kept under.
ghost use Rattle.std.specs.Prelude.{◌≡◌, ◌↔◌, ℕ, true};

pub trait Key: Copy + Eq {
    // The number that a key folds to; its line is that number, cut to the number of lines.
    ghost fold: { Self → ℕ };

    fn fold(self) -> usize
        ensures { result ≡ fold self };

    // Keys are compared whole: equal keys are one key.
    ghost whole: { (a b : Self) → (Self.eq a b ≡ true) ↔ (a ≡ b) };
}
