// A clock.
ghost use Rattle.std.specs.Prelude.{◌≡◌, ℕ, List, [], ◌∷◌, IfSome, IfNone, Option};
ghost use Rattle.outside_io.specs.Told.{append_to, prepend_to};

/// What gives moments, each a number of seconds.
///
/// A clock may tell the moments that it gave and those that are left; it tells after a call exactly where it told
/// before.
pub trait Clock {
    /// The moments given, where they are told.
    ghost given: { Self → Option (List ℕ) };

    /// The moments left, where they are told.
    ghost left: { Self → Option (List ℕ) };

    /// Waits for the next moment and gives it, or None where no moment follows.
    fn next(&mut self) -> Option<u64>
        ensures left { IfSome result (λ moment. left self.old ≡ prepend_to (moment ∷ []) (left self.new)) }
        ensures given { IfSome result (λ moment. given self.new ≡ append_to (given self.old) (moment ∷ [])) }
        ensures kept { IfNone result ((left self.new ≡ left self.old) × (given self.new ≡ given self.old)) }
        ensures end { IfNone result (IfSome (left self.old) (λ left. left ≡ [])) };
}
