// A record with its maximum input beside it, before the StateRecord test and after it.
ghost use Rattle.std.specs.Prelude.{◌≡◌, true};
ghost use Rattle.error.specs.Refusals.{said_result};
ghost use Rattle.kinds.specs.Kinds.{kind_holds};
ghost use Rattle.state.specs.Record.{output_of, max_input_of, maxima_hold, sizes_hold, is_state, update_lengths};

use crate::{
    State, counts_hold, input_of, max_input_of, max_output_of, points_in, ratios_hold, step_now,
    step_then, steps_hold,
};
use error::Refusal;

// A record of a kind that has passed its test, and its maximum input, worked out once for all that is asked
// of the record. Only our own crates use it.
#[derive(Clone, Copy)]
pub struct Measured {
    pub state: State,
    pub most: Option<usize>,
    ghost kind_held: { kind_holds state.kind ≡ true },
    ghost most_is: { most ≡ max_input_of state },
}

impl Measured {
    #[inline(always)]
    pub fn of(state: State) -> Measured
        requires { kind_holds state.kind ≡ true }
        ensures { result.state ≡ state }
    {
        Measured {
            state,
            most: max_input_of(state),
        }
    }

    pub fn output(self) -> Option<usize>
        ensures { result ≡ output_of self.state }
    {
        let s = self.state;
        let t1 = step_now(s);
        let t2 = step_then(s);
        sizes::calculate_output_size(s.fixed, points_in(s), s.chunk, s.index, t1, t2)
    }

    pub fn maxima_hold(self) -> bool
        ensures { result ≡ maxima_hold self.state }
    {
        self.most.is_some() & max_output_of(self.state).is_some()
    }

    fn sizes_hold(self) -> bool
        ensures { result ≡ sizes_hold self.state }
    {
        let s = self.state;
        (input_of(s) == Some(s.input))
            & (self.output() == Some(s.output))
            & sizes::size_holds(self.most, s.input)
            & sizes::size_holds(self.most, s.fill)
    }

    #[inline(always)]
    pub(crate) fn is_state(self) -> bool
        ensures { result ≡ is_state self.state }
    {
        let s = self.state;
        counts_hold(s)
            & ratios_hold(s)
            & steps_hold(s)
            & self.maxima_hold()
            & self.sizes_hold()
            & bounds::is_index(s.index)
    }

    // The one end of every call: sizes, refusal 6, the record put together.
    pub fn update_lengths(self) -> Result<State, Refusal>
        ensures { said_result result ≡ update_lengths self.state }
    {
        let s = self.state;
        let input = input_of(s).ok_or(Refusal::SizeTooLarge)?;
        let output = self.output().ok_or(Refusal::SizeTooLarge)?;
        if !sizes::size_holds(self.most, input) {
            return Err(Refusal::SizeTooLarge);
        }
        Ok(State { input, output, ..s })
    }
}

// A record that has passed the StateRecord test, and its maximum input.
#[derive(Clone, Copy)]
pub struct Tested {
    pub state: State,
    pub most: Option<usize>,
    ghost passes: { is_state state ≡ true },
    ghost most_is: { most ≡ max_input_of state },
}
