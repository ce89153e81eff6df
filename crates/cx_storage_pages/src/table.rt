//! The table of areas, in the order of their starts.

ghost use Rattle.std.specs.Prelude.{◌≡◌, ℕ, ◌≤◌, length, nat_lt, vec_len};
ghost use Rattle.cx_storage.specs.Storage.{area_at, next_area};
ghost use Rattle.cx_storage_pages.specs.Parts.Shown.{stored, areas_before, IsShown};

use crate::page::Page;
use cx_storage::Area;

/// How many areas start before an address.
pub(crate) fn spot_of(areas: &Vec<Area>, _pages: &Vec<Page>, start: u32) -> usize
    requires { IsShown areas.now.items _pages.now.items }
    ensures value { result ≡ areas_before start areas.now.items }
    ensures within { result ≤ vec_len areas.now }
{
    areas.as_slice().partition_point(
        |area: &Area| -> bool
            ensures { result ≡ nat_lt area.now.start start }
        { area.start < start },
    )
}

/// The area that starts at an address.
pub(crate) fn area_of(areas: &Vec<Area>, pages: &Vec<Page>, start: u32) -> Option<Area>
    requires { IsShown areas.now.items pages.now.items }
    ensures { result ≡ area_at (stored areas.now pages.now) start }
{
    let i = spot_of(areas, pages, start);
    if i < areas.len() {
        let area = areas[i];
        if area.start == start {
            return Some(area);
        }
    }
    None
}

/// The first area that starts at an address or above.
pub(crate) fn next_of(areas: &Vec<Area>, pages: &Vec<Page>, from: u32) -> Option<Area>
    requires { IsShown areas.now.items pages.now.items }
    ensures { result ≡ next_area (stored areas.now pages.now) from }
{
    let i = spot_of(areas, pages, from);
    if i < areas.len() {
        Some(areas[i])
    } else {
        None
    }
}
