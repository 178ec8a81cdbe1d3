//! Figures of the card, and how it reads what could be read otherwise, in one statement.
#![tactic(auto)]

ghost use Rattle.figures.specs.Figures.{Figures};

/// The figures follow from the definitions. Nothing runs here.
pub fn stand()
    ensures { Figures }
{}
