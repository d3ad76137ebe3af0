//! Which entries of a baggage are written into spans. A baggage crosses process borders, and may come from strangers: a
//! filter that takes only what is wanted keeps secrets and noise out of exported spans.

ghost use Rattle.std.specs.Prelude.{◌≡◌, ℕ, Bool, List};

/// Decides by an entry's key alone.
pub trait KeyFilter: Drop {
    /// Whether it takes the entry of a key.
    ghost takes: { Self → List ℕ → Bool };

    fn takes(&self, key: &str) -> bool
        ensures { result ≡ takes self.now key.now };
}

/// Takes every entry.
#[derive(Drop)]
pub struct AllKeys;

impl KeyFilter for AllKeys {
    ghost use Rattle.std.specs.Prelude.{true};

    ghost takes = { λ _ _. true };

    fn takes(&self, _key: &str) -> bool {
        true
    }
}
