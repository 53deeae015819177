// The StateRecord test of every call on a record.
ghost use Rattle.std.specs.Prelude.{◌≡◌};
ghost use Rattle.error.specs.Refusals.{given};
ghost use Rattle.state.specs.Record.{is_state, checked};
ghost use Rattle.state.specs.Checks.{said_checked};

use crate::State;
use crate::measured::{Measured, Tested};
use error::Refusal;

// The first rungs of every call on a record: refusal 11 for its kind, then 10, StateRecord. Inlined, since else
// the record is copied into what is answered.
#[inline(always)]
pub fn check(s: State) -> Result<Tested, Refusal>
    ensures { said_checked result ≡ checked s (given s) }
{
    if !kinds::kind_holds(s.kind) {
        return Err(Refusal::Argument);
    }
    let measured = Measured::of(s);
    if !measured.is_state() {
        return Err(Refusal::StateRecord);
    }
    Ok(Tested {
        state: s,
        most: measured.most,
    })
}

pub fn is_state(s: State) -> bool
    ensures { result ≡ is_state s }
{
    check(s).is_ok()
}
