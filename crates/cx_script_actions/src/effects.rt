//! What actions do to a region under EDF.

ghost use Rattle.std.specs.Prelude.{◌≡◌, IfOk, codes};
ghost use Rattle.cx_edf.specs.Runs.{IsAllowedEdf};
ghost use Rattle.cx_script_actions.specs.Effects.{Performs, Replies, main_page_back, page_of, screen_text, shown_page};
ghost use Rattle.cx_script_actions.specs.Texts.{page_lines};
ghost use Rattle.cx_script_actions.specs.declared.actions.Action.TheVariants as action;

use crate::actions::Action;
use crate::performer::Performer;
use crate::texts::{answer_text, page_lines, refused_image};
use cx_base::Page;
use cx_code::{Bytes, Image};
use cx_ebcdic::{Name4, Name8};
use cx_edf::{Debugged, Display, EdfEvent, MakesDisplays, PageName};
use cx_load::check;
use cx_region::{Event, Region};
use cx_storage::Store;
use std::alloc::{AllocError, Global};

/// Does an event, and gives the text of its answer.
#[tactic(auto, using(crate::proofs::EffectLemmas::event_replied))]
fn do_event<S: Store + Drop, M: MakesDisplays>(
    region: &mut Debugged<S, M>,
    alloc: Global,
    event: &EdfEvent,
) -> Result<Vec<u8>, AllocError>
    requires { IsAllowedEdf event.now }
    ensures { IfOk result (λ text. Replies M.make region.old event.now text.items region.new) }
{
    let answer = region.apply(event)?;
    answer_text(alloc, event, answer)
}

/// Defines a program from an image, which is checked before.
#[tactic(auto, using(crate::proofs::EffectLemmas::image_refused, crate::proofs::EffectLemmas::image_defined))]
fn define_image<S: Store + Drop, M: MakesDisplays>(
    region: &mut Debugged<S, M>,
    alloc: Global,
    name: Name8,
    image: Image,
) -> Result<Vec<u8>, AllocError>
    ensures { IfOk result (λ text. Performs M.make region.old (action.Image name image) text.items region.new) }
{
    match check(image) {
        Ok(checked) => do_event(
            region,
            alloc,
            &EdfEvent::Plain(Event::Program(name, checked)),
        ),
        Err((_, fault)) => refused_image(alloc, name, fault),
    }
}

/// Defines a program from a source's image: what is written of the source, then as of any image.
#[tactic(auto, using(crate::proofs::EffectLemmas::source_defined))]
fn define_source<S: Store + Drop, M: MakesDisplays>(
    region: &mut Debugged<S, M>,
    alloc: Global,
    name: Name8,
    before: Bytes,
    image: Image,
) -> Result<Vec<u8>, AllocError>
    ensures { IfOk result (λ text. Performs M.make region.old (action.Source name before image) text.items region.new) }
{
    let mut text = before.into_vec();
    let own = define_image(region, alloc, name, image)?;
    text.extend_from_slice(own.as_slice())?;
    Ok(text)
}

/// What SCREEN writes of a terminal: a line with its name, and the lines of its screen that are not blank, each with
/// its number; or one line with NONE where there is no such terminal.
///
/// An error comes only where memory for it was refused.
#[tactic(auto, using(crate::proofs::ScreenLemmas::screen_is_page))]
pub fn screen_text<S: Store + Drop>(
    alloc: Global,
    region: &Region<S>,
    name: Name4,
) -> Result<Vec<u8>, AllocError>
    ensures { IfOk result (λ text. text.items ≡ screen_text region.now name) }
{
    match region.screen(name) {
        Some(screen) => page_lines(
            alloc,
            b"SCREEN",
            name,
            Some(&Page::of_bytes(screen.cells())),
        ),
        None => page_lines(alloc, b"SCREEN", name, None),
    }
}

/// The page of a display that has this name.
fn page_of(display: &Display, page: PageName) -> &Page
    ensures { result.now ≡ page_of display.now page }
{
    match page {
        PageName::Main => &display.main,
        PageName::Storage => &display.storage,
        PageName::User => &display.user,
    }
}

/// Shows the page that EDF shows at a terminal.
fn show_display<S: Store + Drop, M: MakesDisplays>(
    region: &Debugged<S, M>,
    alloc: Global,
    name: Name4,
) -> Result<Vec<u8>, AllocError>
    ensures { IfOk result (λ text. text.items ≡ page_lines (codes "DISPLAY") name (shown_page region.now name)) }
{
    match region.display(name) {
        Some((display, view)) => {
            page_lines(alloc, b"DISPLAY", name, Some(page_of(display, view.page)))
        }
        None => page_lines(alloc, b"DISPLAY", name, None),
    }
}

/// Shows the main page of the display that many before a terminal's newest.
fn show_previous<S: Store + Drop, M: MakesDisplays>(
    region: &Debugged<S, M>,
    alloc: Global,
    name: Name4,
    back: usize,
) -> Result<Vec<u8>, AllocError>
    ensures { let page = main_page_back region.now name back in
        IfOk result (λ text. text.items ≡ page_lines (codes "DISPLAY") name page) }
{
    match region.previous(name, back) {
        Some(display) => page_lines(alloc, b"DISPLAY", name, Some(&display.main)),
        None => page_lines(alloc, b"DISPLAY", name, None),
    }
}

impl<S: Store + Drop, M: MakesDisplays> Performer for Debugged<S, M> {
    type Action = Action;

    ghost performs = { Performs M.make };

    ghost refused = { λ _ _ _. Unit {0} };

    #[tactic(auto, using(crate::proofs::EffectLemmas::event_done, crate::proofs::EffectLemmas::screen_shown, crate::proofs::EffectLemmas::display_shown, crate::proofs::EffectLemmas::previous_shown))]
    fn perform(&mut self, alloc: Global, action: Action) -> Result<Vec<u8>, AllocError> {
        match action {
            Action::Image(name, image) => define_image(self, alloc, name, image),
            Action::Source(name, before, image) => define_source(self, alloc, name, before, image),
            Action::Event(event) => do_event(self, alloc, &event),
            Action::Screen(name) => screen_text(alloc, self.region(), name),
            Action::Display(name) => show_display(self, alloc, name),
            Action::Previous(name, back) => show_previous(self, alloc, name, back),
        }
    }
}
