//! The pages of the working storage and of the user's screen.
ghost use Rattle.std.specs.Prelude.{◌≡◌, ◌≤◌, fold, map};
ghost use Rattle.std.specs.List.{AllByRecursion};
ghost use Rattle.std.specs.Option.{option_map_or};
ghost use Rattle.cx_region.specs.Tables.{terminal_of};
ghost use Rattle.cx_base.specs.Pages.{blank_page};
ghost use Rattle.cx_base.specs.Texts.{shown_text};
ghost use Rattle.cx_edf_display.specs.Texts.{with_page_line};
ghost use Rattle.cx_edf_display.specs.Displays.{storage_heading, storage_page, with_row};

use crate::seen::Seen;
use cx_base::{Page, hexadecimal};
use cx_ebcdic::Name4;
use cx_region::Region;
use cx_region_bytes::{read_bytes, row_text};
use cx_storage::{Store, address_after};

/// The rows of 16 bytes that are shown.
const ROWS: [u32; 22] = [
    0, 1, 2, 3, 4, 5, 6, 7, 8, 9, 10, 11, 12, 13, 14, 15, 16, 17, 18, 19, 20, 21,
];

/// The first 352 bytes of a task's working storage.
#[tactic(auto, unfolding(crate::specs::Displays::storage_page))]
pub(crate) fn storage_page<S: Store + Drop>(region: &Region<S>, task: &Option<Seen>) -> Page
    ensures { result ≡ storage_page region.now.shared.storage task.now }
{
    let mut page = Page::blank();
    if let Some(task) = task {
        put_heading(&mut page, task);
        put_rows(&mut page, region, task, &ROWS);
    }
    page
}

/// Line 1.
fn put_heading(page: &mut Page, task: &Seen)
    ensures { page.new ≡ with_page_line page.old 1 (storage_heading task.now) }
{
    let place = hexadecimal::<6>(task.stg);
    let length = hexadecimal::<6>(task.stg_len);
    page.put_line(1, &[b"WORKING STORAGE ", &place, b" LENGTH ", &length]);
}

/// Rows with these numbers.
fn put_rows<S: Store + Drop>(page: &mut Page, region: &Region<S>, task: &Seen, rows: &[u32])
    requires { AllByRecursion (λ row. row ≤ 21) rows.now }
    ensures { page.new ≡ fold (with_row region.now.shared.storage task.now) page.old rows.now }
{
    let Some((row, rest)) = rows.split_first() else {
        return;
    };
    put_row(page, region, task, *row);
    put_rows(page, region, task, rest);
}

/// A row, where the working storage goes so far.
#[tactic(auto, unfolding(crate::specs::Displays::with_row))]
fn put_row<S: Store + Drop>(page: &mut Page, region: &Region<S>, task: &Seen, row: u32)
    requires { row ≤ 21 }
    ensures { page.new ≡ with_row region.now.shared.storage task.now page.old row }
{
    if 16 * row >= task.stg_len {
        return;
    }
    let address = address_after(task.stg, 16 * row);
    let count = (task.stg_len - 16 * row).min(16);
    let mut bytes = [None; 16];
    let bytes = &mut bytes[..count as usize];
    read_bytes(region, address, bytes);
    page.put_line(row as usize + 2, &[&row_text(address, bytes)]);
}

/// The user's screen; a blank page where there is no such terminal.
#[tactic(auto, unfolding(cx_base::specs::Pages::IsPage, cx_service::specs::Screen::IsScreen))]
pub(crate) fn user_page<S: Store + Drop>(region: &Region<S>, name: Name4) -> Page
    ensures { result ≡ option_map_or
        (λ terminal. map shown_text terminal.entry.screen) (terminal_of region.now name) blank_page }
{
    match region.screen(name) {
        Some(screen) => Page::of_bytes(screen.cells()),
        None => Page::blank(),
    }
}
