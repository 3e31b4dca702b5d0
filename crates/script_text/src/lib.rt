//! Scripts and replies as text.
#![tactic(auto)]

mod entry;
mod fields;
mod laws;
mod line;
mod lines;
mod print;
mod read;
mod reply;
mod script;
mod text;
mod view;

pub use entry::print_entry;
pub use laws::{
    a_printed_line_is_read, a_read_script_printed, bad_or_script, one_first_bad, one_reading,
};
pub use line::{Line, Mode};
pub use lines::Lines;
pub use print::print_line;
pub use reply::{Reply, print_reply};
pub use script::{Script, ScriptRefusal, read_script};
pub use view::LineView;
