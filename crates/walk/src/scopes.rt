// Scopes and loops: the events that ask nothing.
ghost use Rattle.std.specs.Prelude.{◌≡◌};
ghost use Rattle.definition.specs.Outside.{Outside};
ghost use Rattle.definition.specs.Walk.{enter, leave, loop};
ghost use Rattle.machine.specs.Machine.{step_state};
ghost use Rattle.walk.specs.WalkState.{state_of, Same};

use crate::state::Walker;
use symbols::env::{push_loop, push_scope};

// The scope of `row` opens.
pub fn open_scope(walk: &mut Walker<'_, '_>, row: u32)
    ensures step { (O : Outside) → state_of walk.new ≡ step_state O walk.old.sheet.now (enter row) (state_of walk.old) }
    ensures same { Same walk.old walk.new }
{
    let (sheet, env) = (walk.sheet, walk.env);
    walk.env = push_scope(sheet, row, env, walk.entries);
}

// The innermost scope closes.
pub fn close_scope(walk: &mut Walker<'_, '_>)
    ensures step { (O : Outside) → state_of walk.new ≡ step_state O walk.old.sheet.now leave (state_of walk.old) }
    ensures same { Same walk.old walk.new }
{
    walk.env = walk.around();
}

// The rest of the innermost scope is in a loop.
pub fn begin_loop(walk: &mut Walker<'_, '_>)
    ensures step { (O : Outside) → state_of walk.new ≡ step_state O walk.old.sheet.now loop (state_of walk.old) }
    ensures same { Same walk.old walk.new }
{
    let env = walk.env;
    walk.env = push_loop(env, walk.entries);
}
