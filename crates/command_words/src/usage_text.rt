//! The usage text.

use crate::parse::option;
use crate::table::Verb;
use hr_base::Memory;
use std::alloc::{AllocError, Global};

/// The usage text of the program, of which nothing is proved.
pub fn usage(alloc: Global) -> Result<String, Memory> {
    let mut text = String::new(alloc);
    for verb in &Verb::ALL {
        text.push_str(help_of(alloc, *verb)?.as_str())?;
    }
    Ok(text)
}

// The usage of a command, with its options.
fn help_of(alloc: Global, verb: Verb) -> Result<String, AllocError> {
    let row = verb.row();
    let mut notes = Vec::new(alloc);
    for setting in row.settings {
        let option = setting.row();
        notes.push(format!(in alloc;
            "from {} to {}, by default {}",
            option.least, option.most, option.default
        )?)?;
    }
    let path = format!(in alloc; "hotrestart FOLDER {}", row.name)?;
    let mut command = clap::Command::new(alloc, row.name)
        .bin_name(path.as_str())?
        .disable_help_flag(true);
    for (setting, note) in row.settings.iter().zip(&notes) {
        let arg = option(alloc, *setting)
            .value_name("NUMBER")
            .help(note.as_str());
        command = command.arg(arg)?;
    }
    command.render_help()
}
