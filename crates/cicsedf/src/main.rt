//! `cicsedf [FILE]`: runs a script from a file or from standard input, and writes its transcript. It is
//! `cx_script_main::start` on its machine.
#![tactic(auto)]

use cx_edf_display::EdfDisplays;
use cx_script::edf_performer;
use cx_script_main::{About, Machine, start};
use std::process::ExitCode;

/// The line on standard error where the words are refused.
const USAGE: &str = "cicsedf: usage: cicsedf [FILE]";

/// What it is, beside its scripts: all options are refused, and a fault is reported alone, without the line of the
/// script that it is of.
const ABOUT: About = About {
    usage: USAGE,
    texts: None,
    shows_lines: false,
};

fn main(rt: HostRuntime) -> ExitCode {
    start(
        &mut Machine::new(&rt),
        rt.alloc(),
        edf_performer::<EdfDisplays>(rt.alloc()),
        ABOUT,
    )
}
