//! `cicslook [FILE]`: runs a script with looks from a file or from standard input, and writes its transcript.
#![tactic(auto)]

use cx_edf_display::EdfDisplays;
use cx_look_script::look_performer;
use cx_script_main::{About, Machine, Texts, start};
use std::process::ExitCode;

/// The line on standard error where the words are refused.
const USAGE: &str = "cicslook: usage: cicslook [FILE]";

/// What `--help` asks for.
const HELP: &str = "\
cicslook [FILE]: runs a script from a file or from standard input, and writes its transcript.
  -h, --help     this text
  -V, --version  the version
The script's line HELP lists the lines that cicsedf doesn't have.
Status: 0 all was done, 1 a bad line, look or source, 2 other words, 3 reading or writing failed, 4 out of memory.";

/// What `--version` asks for.
const VERSION: &str = "cicslook 0.10.0";

/// What it is, beside its scripts: the line of the script that a fault is of is reported too.
const ABOUT: About = About {
    usage: USAGE,
    texts: Some(Texts {
        help: HELP,
        version: VERSION,
    }),
    shows_lines: true,
};

fn main(rt: HostRuntime) -> ExitCode {
    start(
        &mut Machine::new(&rt),
        rt.alloc(),
        look_performer::<EdfDisplays>(rt.alloc()),
        ABOUT,
    )
}
