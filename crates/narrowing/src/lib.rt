// The narrowing family: what its sixteen words mean. The crate `narrow` does them.
#![tactic(auto)]

ghost use Rattle.narrowing.specs.Claims.{Claims};

// The theorems about these definitions. It does nothing: its promise has the check demand their proofs.
pub fn claims()
    ensures { Claims }
{}
