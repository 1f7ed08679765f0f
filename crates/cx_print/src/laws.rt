//! What holds of every line.

ghost use Rattle.std.specs.Prelude.{◌≤◌, length};
ghost use Rattle.cx_print.specs.Lines.{obs_line, root_line, state_line, step_line};
ghost use Rattle.cx_print.specs.declared.line.TheConstants.{LINE_CAPACITY};

use crate::obs::{obs_text, root_text};
use crate::step::{state_text, step_text};
use cx_csr::State;
use cx_hart::StepRec;
use cx_observe::Obs;

/// A law: the line of a step has at most 742 bytes, whatever the record.
pub fn a_step_line_is_short(step: u64, rec: &StepRec)
    ensures { length (step_line step rec.now) ≤ LINE_CAPACITY }
{
    let _line = step_text(step, rec);
}

/// A law: so has the line of a state.
pub fn a_state_line_is_short(step: u64, state: &State)
    ensures { length (state_line step state.now) ≤ LINE_CAPACITY }
{
    let _line = state_text(step, state);
}

/// A law: so has the line of an observation.
pub fn an_observation_line_is_short(index: u64, obs: &Obs)
    ensures { length (obs_line index obs.now) ≤ LINE_CAPACITY }
{
    let _line = obs_text(index, obs);
}

/// A law: so has the line of a root.
pub fn a_root_line_is_short(root: u32, steps: u64, first: u64)
    ensures { length (root_line root steps first) ≤ LINE_CAPACITY }
{
    let _line = root_text(root, steps, first);
}
