//! Where a worker gets told which cells may be worth a look.

/// Numbers of pending cells, given one by one, that a worker may look at when its stack is empty. What
/// they name is no more than a hint: a number that is no cell's, or a known one's, does no harm.
pub trait Hints: Drop + Send {
    ghost use Rattle.std.specs.Prelude.{◌≡◌, ℕ, suc, Bool, true, false, Option, None, IfSome};

    /// How many numbers can still be given, at most.
    ghost left: { Self → ℕ };

    /// The last number that was given.
    ghost last: { Self → Option ℕ };

    /// Whether they have ended.
    ghost over: { Self → Bool };

    /// What holds where they may be asked: a `None` ends it.
    ghost askable: { Self → Type 0 };

    /// The next number. After a `None` the hints have ended, and are asked no more: so they are asked at
    /// most once for each number that is left, and once more.
    fn take(&mut self) -> Option<u32>
        requires { askable self.old }
        ensures some { IfSome result (λ i. (left self.old ≡ suc (left self.new)) × (last self.new ≡ Some i) × (over self.new ≡ over self.old) × askable self.new) }
        ensures none { result ≡ None → (left self.new ≡ left self.old) × (last self.new ≡ last self.old) × (over self.new ≡ true) };

    /// Whether a `None` came. Where none came, they may be asked.
    fn ended(&self) -> bool
        ensures over { result ≡ over self.now }
        ensures askable { result ≡ false → askable self.now };
}

/// No hints: they have ended from the start.
#[derive(Clone, Copy, Debug, PartialEq, Eq, Drop)]
pub struct NoHints;

impl Hints for NoHints {
    ghost use Rattle.std.specs.Prelude.{true, None};

    ghost left = { λ _. 0 };

    ghost last = { λ _. None };

    ghost over = { λ _. true };

    ghost askable = { λ _. Unit };

    fn take(&mut self) -> Option<u32> {
        None
    }

    fn ended(&self) -> bool {
        true
    }
}
