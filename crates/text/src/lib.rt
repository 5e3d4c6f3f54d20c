// The text of the lister's lines: what it is stands in specs/; the crate `listing` writes it into buffers.
#![tactic(auto)]

ghost use Rattle.text.specs.Claims.{Claims};

// The theorems about these definitions. It does nothing: its promise has the check demand their proofs.
pub fn claims()
    ensures { Claims }
{}
