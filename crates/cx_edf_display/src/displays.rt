//! Displays.
ghost use Rattle.cx_edf_display.specs.Displays.{display_of};

use crate::main_page::main_page;
use crate::seen::Seen;
use crate::storage_page::{storage_page, user_page};
use cx_ebcdic::Name4;
use cx_edf::{Display, MakesDisplays, StopPoint};
use cx_region::Region;
use cx_storage::Store;

/// The displays that EDF shows: a main page, the working storage, and the user's screen.
pub struct EdfDisplays;

impl MakesDisplays for EdfDisplays {
    ghost make = { display_of };

    #[tactic(auto, unfolding(crate::specs::Displays::display_of))]
    fn take<S: Store + Drop>(region: &Region<S>, name: Name4, kind: &StopPoint) -> Display {
        let task = Seen::at(region, name, kind);
        let main = main_page(region, name, kind, &task);
        let storage = storage_page(region, &task);
        let user = user_page(region, name);
        Display {
            kind: *kind,
            main,
            storage,
            user,
        }
    }
}
