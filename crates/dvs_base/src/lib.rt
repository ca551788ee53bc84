//! Names, numbers and lines as text, the notes of a run, and the traits of the outside.
//!
//! A [`Shelf`] is where files are loaded from, and a [`Sink`] is where bytes are written to. Callers may rely on this
//! of both: an answer `Failed` comes only if the count of faults rose in that call, the count never falls, and what
//! is guaranteed (`sure`) does not fail. `MemShelf` and `MemSink` are an outside in memory and say exactly what each
//! call does, `VoidSink` keeps nothing, and `HostShelf` and `HostSink` are the edge to the system.
//! [`whole`], [`wide`], [`Name`] and [`Short`] read text exactly, and so do the calls that read the words of a plan,
//! [`scheduler_of`], [`governor_of`] and [`ticks_of`]; [`Line`] and what fills it take no memory.
//! [`read_document`] gives a settings file's TOML document, and the calls beside it give the values of its keys: each
//! answer is that of `specs/Settings.antt`, and no other call of them takes memory.
#![tactic(auto)]

mod digits;
mod fault_line;
mod host;
mod kind;
mod limits;
mod line;
mod memory;
mod name;
mod note;
mod number;
mod outside;
mod part;
mod plan_word;
mod put;
mod settings;
mod told;
mod void;

pub use fault_line::{settings_line, too_many_line};
pub use host::{HostShelf, HostSink};
pub use kind::{GovernorKind, Scheduler, Version};
pub use limits::{
    LINE_BYTES, LONGEST_FILE, LONGEST_LINE, LONGEST_TRACE, MOST_JOBS, MOST_LINES, MOST_TASKS,
    MOST_TICKS, NAME_BYTES, NUMBER_BYTES, POSITION_BYTES, RATIO_BYTES, WIDE_BYTES,
};
pub use line::{Line, put_num};
pub use memory::{FailAt, MemShelf, MemSink};
pub use name::{Name, Short};
pub use note::{Note, Pos, Totals};
pub use number::{whole, wide};
pub use outside::{Failed, LoadFault, NoMemory, Shelf, Sink};
pub use part::{
    Part, line_of, name_part, push_name, push_number, push_part, push_parts, push_position,
    push_ratio, push_wide, push_word,
};
pub use plan_word::{governor_of, is_pair, scheduler_of, ticks_of};
pub use put::{put_line, put_two};
pub use settings::{
    DocumentFault, MemberFault, member_at, number_at, number_or_zero, read_document, text_at,
    unknown_key,
};
pub use told::{Loaded, Taken};
pub use void::VoidSink;
