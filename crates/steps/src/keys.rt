// Document 01, 'Writing A5h to PRESET', and document 02, request Two: which register is CTRLPRESET, and which steps are writes: each by itself, since
// must-fail/read_forgets and ctrl_write_is_none are refused by them.
ghost use Rattle.std.specs.Prelude.{◌≡◌};
ghost use Rattle.steps.specs.Keys.{ctrlpreset_of, op_writes, wide_writes};

use crate::map::{Ctrl, Op, Wide};

// Whether a register of the whole part is CTRLPRESET.
pub fn is_ctrlpreset(reg: Ctrl) -> bool
    ensures { result ≡ ctrlpreset_of reg }
{
    reg == Ctrl::Ctrlpreset
}

// Whether a step of a channel is a write.
pub fn op_writes(op: Op) -> bool
    ensures { result ≡ op_writes op }
{
    matches!(op, Op::Write(..))
}

// Whether a step of the whole part is one.
pub fn wide_writes(t: Wide) -> bool
    ensures { result ≡ wide_writes t }
{
    matches!(t, Wide::CtrlWrite(..))
}
