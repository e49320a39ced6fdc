// What a step of the part answers.
#![tactic(auto, using(laws::specs::Cases::cases), unfolding(crate::specs::Answer::act_if))]

ghost use Rattle.std.specs.Prelude.{◌≡◌, ◌<◌};
ghost use Rattle.rules.specs.Numbers.{done, refusal_number};
ghost use Rattle.steps.specs.Answer.{quiet, act_if, only_at, numbered, valued};

use rules::{Action, DONE, Refusal};

// The number of document 01, the value of a read, and an action for each channel. A number and no `Result`: document 01 has it as a byte of the answer. Made by the same
// four as a channel's `Answer`: a generic one would change the record of each definition.
#[derive(Clone, Copy, PartialEq, Eq)]
pub struct PartAnswer {
    pub number: u8,
    pub value: u8,
    pub actions: [Action; 3],
}

// No action at all.
pub fn no_acts() -> [Action; 3]
    ensures { result ≡ quiet }
{
    [Action::Nothing; 3]
}

// The action, if it is this channel's.
fn act_if(mine: bool, action: Action) -> Action
    ensures { result ≡ act_if mine action }
{
    if mine { action } else { Action::Nothing }
}

// An action of channel c alone. Entry by entry: a store at an index is slower (docs/SPEED.md).
pub fn act_at(c: u8, action: Action) -> [Action; 3]
    requires { c < 3 }
    ensures { result ≡ only_at c action }
{
    [
        act_if(c == 0, action),
        act_if(c == 1, action),
        act_if(c == 2, action),
    ]
}

impl PartAnswer {
    // A number and nothing else.
    pub fn numbered(number: u8) -> Self
        ensures { result ≡ numbered number }
    {
        PartAnswer {
            number,
            value: 0,
            actions: no_acts(),
        }
    }

    pub fn done() -> Self
        ensures { result ≡ numbered done }
    {
        PartAnswer::numbered(DONE)
    }

    pub fn refused(e: Refusal) -> Self
        ensures { result ≡ numbered (refusal_number e) }
    {
        PartAnswer::numbered(e.number())
    }

    // The value of a read.
    pub fn reply(value: u8) -> Self
        ensures { result ≡ valued value }
    {
        PartAnswer {
            value,
            ..PartAnswer::done()
        }
    }
}
