// Document 02, request Eleven: the numbers of actions and events, for whatever encodes them. This is the one table of such numbers.
ghost use Rattle.std.specs.Prelude.{◌≡◌};
ghost use Rattle.rules.specs.Tags.{tag, action_tag, event_of};

use crate::wires::{Action, Event, Level};

// An action or an event in numbers: its kind, and the byte that it carries, or 0.
#[derive(Clone, Copy, PartialEq, Eq)]
pub struct Tag {
    pub kind: u8,
    pub value: u8,
}

// What a channel does, in numbers.
pub fn action_tag(a: Action) -> Tag
    ensures { result ≡ action_tag a }
{
    match a {
        Action::Nothing => Tag { kind: 0, value: 0 },
        Action::S(b) => Tag { kind: 1, value: b },
        Action::R(b) => Tag { kind: 2, value: b },
        Action::D(b) => Tag { kind: 3, value: b },
        Action::C => Tag { kind: 4, value: 0 },
        Action::A => Tag { kind: 5, value: 0 },
        Action::Np => Tag { kind: 6, value: 0 },
        Action::Nr(b) => Tag { kind: 7, value: b },
        Action::P => Tag { kind: 8, value: 0 },
    }
}

// What a channel hears, out of numbers, or that the tag is no event's.
#[tactic(auto, unfolding(crate::specs::Tags::known_as, crate::specs::Tags::same_tag))]
pub fn event_of(kind: u8, value: u8) -> Option<Event>
    ensures { result ≡ event_of (tag kind value) }
{
    match (kind, value) {
        (9, 0) => Some(Event::Ninth(Level::Low)),
        (10, _) => Some(Event::Byte(value)),
        (11, 0) => Some(Event::Ninth(Level::High)),
        (12, 0) => Some(Event::Tick),
        (13, 0) => Some(Event::Stop),
        (14, 0) => Some(Event::Sda),
        (15, 0) => Some(Event::Scl),
        (16, 0) => Some(Event::Ill),
        (20, 0) => Some(Event::Sent),
        _ => None,
    }
}
