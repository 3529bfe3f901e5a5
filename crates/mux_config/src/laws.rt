//! Laws: the first of some faults.
ghost use Rattle.std.specs.Prelude.{◌≡◌, Contains, List, None, Some, [], false};
ghost use Rattle.std.specs.List.{AllByRecursion};
ghost use Rattle.mux_config.specs.Faults.{Fault, comes_before, first_in};

/// The first of some faults is one of them, and none of them comes before it. Only where there are none is there no first.
pub fn first_law()
    ensures first { (fs : List Fault) (f : Fault) → first_in None fs ≡ Some f → Contains fs f × AllByRecursion (λ g. comes_before g f ≡ false) fs }
    ensures none { (fs : List Fault) → first_in None fs ≡ None → fs ≡ [] }
{}
