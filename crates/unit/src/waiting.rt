//! How a core waits for a unit: one text for every unit, with any number of clocks before its first step (lead-in) and after its last (closing).
ghost use Rattle.std.specs.Prelude.{◌≡◌};
ghost use Rattle.unit.specs.After.{after};
ghost use Rattle.unit.specs.Waiting.{carried, goes_on, Waits};

use crate::StepUnit;

/// The pair after one more clock, at step number `s`, where `lead` clocks come before the unit's first step.
pub fn carried<U: StepUnit>(lead: u16, operands: U::Operands, s: u16, pair: U::Pair) -> U::Pair
    ensures { result ≡ carried (U.started operands) (U.stepped operands) U.STEPS lead s pair }
{
    let from = if s == 0 { U::start(operands) } else { pair };
    if lead <= s && s - lead < U::STEPS {
        U::step(operands, s - lead, from)
    } else {
        from
    }
}

/// Whether a wait of `total` clocks goes on after the clock at this step number: at the last it does not.
pub fn goes_on(step: u16, total: u16) -> bool
    ensures { result ≡ goes_on total step }
{
    step < total.saturating_sub(1)
}

/// All the steps of a unit at once.
#[tactic(auto, unfolding(crate::specs::After::after))]
pub fn run<U: StepUnit>(operands: U::Operands) -> U::Answer
    ensures { result ≡ U.answer operands (after (U.stepped operands) (U.started operands) U.STEPS) }
{
    let mut pair = U::start(operands);
    for s in 0..U::STEPS {
        pair = U::step(operands, s, pair);
    }
    U::result(operands, pair)
}

/// The waiting serves every unit: clock by clock it makes each step once and in order, and it ends with the pair of all steps. Nothing runs here.
pub fn waiting_serves<U: StepUnit>(operands: U::Operands)
    ensures { Waits (U.started operands) (U.stepped operands) U.STEPS }
{}
