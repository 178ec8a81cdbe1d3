//! What the steps come to. Each function carries a law in its contract, and nothing runs here.
ghost use Rattle.unit.specs.Exact.{OneStep, AddAndShift, ProductIsExact, ProductWords, DivisionIsPlain, DivisionIsExact, DivisionWords};

/// One step of add and shift, at every width.
pub fn one_step()
    ensures { OneStep }
{}

/// All steps of add and shift, at every width.
pub fn add_and_shift()
    ensures { AddAndShift }
{}

/// The multiplier's steps give the exact product, signed or not.
pub fn product_exact()
    ensures exact { ProductIsExact }
    ensures words { ProductWords }
{}

/// The divider's steps give quotient and rest.
pub fn division_exact()
    ensures plain { DivisionIsPlain }
    ensures exact { DivisionIsExact }
    ensures words { DivisionWords }
{}
