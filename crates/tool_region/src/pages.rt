//! Screens and displays as a transcript has them, and tasks. Printing them takes no memory.

use crate::answers::as_text;
use cx_base::{Page, shown_bytes, trim};
use cx_ebcdic::Name4;
use cx_edf::{Debugged, Display, PageName};
use cx_edf_display::EdfDisplays;
use cx_region::TaskInfo;
use cx_service::Screen;
use cx_storage::Store;
use std::io;

/// How many displays are kept of a session.
const KEPT: usize = 10;

/// The length of an EIB.
const EIB_LEN: usize = 88;

/// Prints a line of a page with its number, unless it is blank.
fn print_line(rt: &HostRuntime, number: u32, line: &[u8]) -> io::Result<()> {
    if trim(line).is_empty() {
        return Ok(());
    }
    println!(rt; "{number:02}|{}", as_text(line))
}

/// Prints the lines of a page that are not blank.
fn print_page(rt: &HostRuntime, page: &Page) -> io::Result<()> {
    let mut number = 0u32;
    for line in page.lines() {
        number = number.saturating_add(1);
        print_line(rt, number, line)?;
    }
    Ok(())
}

/// Prints the lines of a screen that are not blank.
fn print_cells(rt: &HostRuntime, screen: &Screen) -> io::Result<()> {
    let mut number = 0u32;
    for line in screen.cells() {
        number = number.saturating_add(1);
        print_line(rt, number, &shown_bytes(line))?;
    }
    Ok(())
}

/// Prints a word and a terminal's name.
fn print_heading(rt: &HostRuntime, word: &str, name: Name4) -> io::Result<()> {
    let shown = shown_bytes(&name.bytes());
    print!(rt; "{word} {}", as_text(&shown))
}

/// The screen of a terminal.
fn screen_of<S: Store + Drop>(region: &Debugged<S, EdfDisplays>, name: Name4) -> Option<&Screen> {
    region.screen(name)
}

/// Prints the screen of a terminal as SCREEN does.
pub fn print_screen<S: Store + Drop>(
    rt: &HostRuntime,
    region: &Debugged<S, EdfDisplays>,
    name: Name4,
) -> io::Result<()> {
    print_heading(rt, "SCREEN", name)?;
    match screen_of(region, name) {
        Some(screen) => {
            println!(rt;)?;
            print_cells(rt, screen)
        }
        None => println!(rt; " NONE"),
    }
}

/// The page that is shown at a terminal.
fn shown_page<S: Store + Drop>(region: &Debugged<S, EdfDisplays>, name: Name4) -> Option<&Page> {
    let (display, view) = region.display(name)?;
    Some(match view.page {
        PageName::Main => &display.main,
        PageName::Storage => &display.storage,
        PageName::User => &display.user,
    })
}

/// A display of a terminal, `back` displays before the newest.
fn kept<S: Store + Drop>(
    region: &Debugged<S, EdfDisplays>,
    name: Name4,
    back: usize,
) -> Option<&Display> {
    region.previous(name, back)
}

/// Prints the page that is shown at a terminal, or the main page of the display `back` displays before its newest.
pub fn print_displays<S: Store + Drop>(
    rt: &HostRuntime,
    region: &Debugged<S, EdfDisplays>,
    name: Name4,
    back: Option<usize>,
) -> io::Result<()> {
    print_heading(rt, "DISPLAY", name)?;
    let page = match back {
        Some(back) => kept(region, name, back).map(|display| &display.main),
        None => shown_page(region, name),
    };
    match page {
        Some(page) => {
            println!(rt;)?;
            print_page(rt, page)
        }
        None => println!(rt; " NONE"),
    }
}

/// Prints the three pages of a display.
fn print_display(rt: &HostRuntime, name: Name4, back: usize, display: &Display) -> io::Result<()> {
    print_heading(rt, "MAIN PAGE", name)?;
    println!(rt; " {back}")?;
    print_page(rt, &display.main)?;
    print_heading(rt, "STORAGE PAGE", name)?;
    println!(rt; " {back}")?;
    print_page(rt, &display.storage)?;
    print_heading(rt, "USER PAGE", name)?;
    println!(rt; " {back}")?;
    print_page(rt, &display.user)
}

/// The live task of a terminal.
fn task_of<S: Store + Drop>(region: &Debugged<S, EdfDisplays>, name: Name4) -> Option<TaskInfo> {
    region.task(name)
}

/// A byte of storage; 0 where there is none.
fn byte_at<S: Store + Drop>(region: &Debugged<S, EdfDisplays>, address: u32) -> u8 {
    region.byte(address).unwrap_or(0)
}

/// Prints registers, four to a line.
fn print_registers(rt: &HostRuntime, registers: &[u32]) -> io::Result<()> {
    for four in registers.chunks(4) {
        if let [a, b, c, d] = four {
            println!(rt; "R {a:08X} {b:08X} {c:08X} {d:08X}")?;
        }
    }
    Ok(())
}

/// The bytes of a task's EIB.
fn eib_bytes<S: Store + Drop>(region: &Debugged<S, EdfDisplays>, start: u32) -> [u8; EIB_LEN] {
    let mut bytes = [0; EIB_LEN];
    let mut address = start;
    for byte in bytes.iter_mut() {
        *byte = byte_at(region, address);
        address = address.wrapping_add(1);
    }
    bytes
}

/// Prints the bytes of a task's EIB.
fn print_eib<S: Store + Drop>(
    rt: &HostRuntime,
    region: &Debugged<S, EdfDisplays>,
    start: u32,
) -> io::Result<()> {
    let mut digits = [0; 2 * EIB_LEN];
    let _ = hex::encode_to_slice(eib_bytes(region, start), &mut digits);
    println!(rt; "EIB {}", std::str::from_utf8(&digits).unwrap_or("?"))
}

/// Prints a live task of a terminal.
fn print_live<S: Store + Drop>(
    rt: &HostRuntime,
    region: &Debugged<S, EdfDisplays>,
    task: &TaskInfo,
) -> io::Result<()> {
    let program = shown_bytes(&task.program.bytes());
    println!(rt;
        " {:07} LEVELS {} PROGRAM {}",
        task.number,
        task.levels,
        as_text(&program)
    )?;
    println!(rt; "STORAGE {:06X} LENGTH {:06X}", task.stg, task.stg_len)?;
    print_registers(rt, &task.cpu.regs)?;
    println!(rt; "CC {} NEXT {:06X}", task.cpu.cc, task.cpu.next)?;
    print_eib(rt, region, task.eib)
}

/// Prints the task of a terminal.
fn print_task<S: Store + Drop>(
    rt: &HostRuntime,
    region: &Debugged<S, EdfDisplays>,
    name: Name4,
) -> io::Result<()> {
    print_heading(rt, "TASK", name)?;
    match task_of(region, name) {
        Some(task) => print_live(rt, region, &task),
        None => println!(rt; " NONE"),
    }
}

/// Prints the task of a terminal, its screen, and all displays that are kept of it, the newest first.
pub fn print_all<S: Store + Drop>(
    rt: &HostRuntime,
    region: &Debugged<S, EdfDisplays>,
    name: Name4,
) -> io::Result<()> {
    print_task(rt, region, name)?;
    print_screen(rt, region, name)?;
    for back in 0..KEPT {
        if let Some(display) = kept(region, name, back) {
            print_display(rt, name, back, display)?;
        }
    }
    Ok(())
}
