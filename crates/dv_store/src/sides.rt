ghost use Rattle.std.specs.Prelude.{◌≡◌};

/// A pair of a callback and an errback, either of which may be missing (Twisted:
/// `Deferred.addCallbacks`).
pub trait Sides {
    ghost use Rattle.std.specs.Prelude.{Bool};

    ghost passes_at: { Self → Bool → Bool };

    /// Whether the side for this kind of value is missing, so that the value goes on to the next
    /// pair: the errback's where the value is a failure, else the callback's.
    fn passes(&self, failed: bool) -> bool
        ensures { result ≡ passes_at self.now failed };
}
