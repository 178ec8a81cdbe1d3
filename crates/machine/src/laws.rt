//! What holds of every core and every bus. Each function carries a law in its contract, and nothing runs here.
ghost use Rattle.bus.specs.Meaning.{Meaning};
ghost use Rattle.machine.specs.Isa.{Isa, Pace, Lawful};
ghost use Rattle.machine.specs.State.{Boundary, live};
ghost use Rattle.machine.specs.Laws.{SharesAreShortest, NoShareIsLeft, OthersPass, StopsWithoutAShare, Law, ARiseOnAcknowledgingIsLost, AStalledLineIsNoStep, AStoreLandsBeforeTheFetch};

/// A share is the shortest beginning of the lines with as many unstalled lines as the clocks.
pub fn shares()
    ensures shortest { SharesAreShortest }
    ensures none { NoShareIsLeft }
{}

/// An instruction without an access passes the clocks of its share but the last before it takes effect.
pub fn others()
    ensures { (M : Meaning) (I : Isa) → OthersPass M I }
{}

/// The instruction machine stops only where no whole share is left.
pub fn stops()
    ensures { (M : Meaning) (I : Isa) (T : Pace) → StopsWithoutAShare M I T }
{}

/// The laws of histories, of every instruction set with a pace that fits it, over every bus, from every instruction boundary on.
pub fn histories()
    ensures { (M : Meaning) (I : Isa) (T : Pace) → Lawful I T → (b : Boundary) → Law M I T (live b) }
{}

/// What the laws of histories alone do not pin of finishing.
pub fn finishing()
    ensures rise { (M : Meaning) (I : Isa) (T : Pace) → ARiseOnAcknowledgingIsLost M I T }
    ensures stall { (M : Meaning) (I : Isa) (T : Pace) → AStalledLineIsNoStep M I T }
    ensures store { (M : Meaning) (I : Isa) → AStoreLandsBeforeTheFetch M I }
{}
