// A state with one of its fields changed: whatever else a state has stays as it is. A function for each field, since the definitions name each.
ghost use Rattle.std.specs.Prelude.{◌≡◌};
ghost use Rattle.state.specs.State.{with_stage, with_id, with_line, with_held};

use crate::{Stage, State};
use baud::LineSetting;

pub fn with_stage(state: State, stage: Stage) -> State
    ensures { result ≡ with_stage stage state }
{
    State { stage, ..state }
}

pub fn with_id(state: State, id: [u8; 16]) -> State
    ensures { result ≡ with_id id state }
{
    State { id, ..state }
}

pub fn with_line(state: State, line: LineSetting) -> State
    ensures { result ≡ with_line line state }
{
    State { line, ..state }
}

pub fn with_held(state: State, held: usize) -> State
    ensures { result ≡ with_held held state }
{
    State { held, ..state }
}
