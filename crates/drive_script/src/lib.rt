//! The script of rounds: its types, its grammar, and the reader that finds its first bad line.
//!
//! A script, or its first bad line:
//!
//!     let script = read_script(alloc, b"round 0\n")?;
#![tactic(auto)]

mod beside;
mod cursor;
mod examples;
mod facts;
mod faults;
mod headers;
mod heads;
mod lines;
mod progress;
mod reader;
mod recent;
mod script;
mod settings;

pub use cursor::Cursor;
pub use examples::{
    basic_example, empty_example, overflow_example, sampled_example, series_limit_example,
    settings_example, unlimited_example,
};
pub use facts::{beginnings, lines_say_one_thing, one_first_bad_line, one_reading};
pub use faults::{DriveFault, SettingFault};
pub use reader::{read_script, read_script_beside, read_script_from};
pub use script::{Act, CallLine, Round, Script, Settings, Setup};
pub use settings::check_settings;
