// A fault of an identifier of a text that is otherwise well formed. Reason 0 is none.
ghost use Rattle.std.specs.Prelude.{◌≡◌};
ghost use Rattle.syntax.specs.Working.Faults.{against};
ghost use Rattle.naming.specs.Working.Faults.{first_of, clear_at};

use syntax::fault::Fault;

// No fault.
pub fn clear() -> Fault
    ensures { result ≡ clear_at }
{
    Fault {
        reason: 0,
        place: 0,
    }
}

// A reason at a place.
pub fn fault_at(reason: usize, place: usize) -> Fault
    ensures { result ≡ against reason place }
{
    Fault { reason, place }
}

// The one of two that stands first.
pub fn earlier(a: Fault, b: Fault) -> Fault
    ensures { result ≡ first_of a b }
{
    if a.reason == 0 {
        return b;
    }
    if b.reason == 0 {
        return a;
    }
    if a.place <= b.place {
        return a;
    }
    b
}
