// The rules of document 01 that need no record of a channel: its enums and parts, and the decisions and loops on registers and tables; and document 02's two parts, and its numbers of
// actions and events.
#![tactic(auto)]

mod access;
mod numbers;
mod parts;
mod registers;
mod state;
mod tables;
mod tags;
mod wires;

pub use access::{
    busy_refusal, conf_refusal, data_refusal, find_place, is_preset, key_after, overrun,
    past_refusal, place_refusal, resets, sel_refusal, sla_refusal, spot_refusal,
};
pub use numbers::{
    ADDRESS_REFUSED, BUFFER, DATA_REFUSED, DONE, DONE_STATUS, LOCKED, MEMORY, NO_ROOM, NOT_A_FILE,
    NOT_BEGUN, NOWHERE, OUT_OF_RANGE, PAST_BUFFER, Refusal, UNDERWAY, UNREADABLE, number_of,
};
pub use parts::{Device, Kind, Straps, device_by, device_id, is_fm, other_kind};
pub use registers::{
    Command, FEMSK, FLDMSK, REMSK, Register, SDMSK, WEMSK, active, bit, chstatus_value, command_of,
    control_value, mask_kept, place_of, weight,
};
pub use state::{Flags, Phase, Ptrs, Regs, Walk};
pub use tables::{byte, first_sent, fits, mark, reads, skipped, start_of, wipe};
pub use tags::{Tag, action_tag, event_of};
pub use wires::{Action, Edge, Event, Level};
