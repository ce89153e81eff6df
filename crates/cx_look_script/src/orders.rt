//! ORDERS: every order of a region's turns and of keys that are to come.
ghost use Rattle.std.specs.Prelude.{◌≡◌, ◌≤◌, ◌∷◌, ◌++◌, [], IfOk, OnOk, map};
ghost use Rattle.std.specs.List.{AllByRecursion};
ghost use Rattle.cx_look.specs.declared.orders.Sight.TheVariants as sight;
ghost use Rattle.cx_look_script.specs.Looking.{AreLookLines, ShowsOrders, at_region};
ghost use Rattle.cx_look_script.specs.Orders.{AreSeen, IsSeen, SeenThen, hidden_lines, names_with_edf, sights_of};
ghost use Rattle.cx_look_script.specs.Telling.{turn_told};
ghost use Rattle.cx_look_tables.specs.Hidden.{hidden_rows};
ghost use Rattle.cx_orders.specs.Moves.{IsFew};
ghost use Rattle.cx_script_actions.specs.Effects.{screen_text};
ghost use Rattle.cx_script_io.specs.Lines.{last_met, lines_met};
ghost use Rattle.cx_script_io.specs.declared.input.Ending.TheVariants.{AtEnd};

use crate::looks::look_lines;
use crate::performer::LookedRegion;
use crate::telling::turn_told;
use cx_base::List;
use cx_ebcdic::Name4;
use cx_edf::{Debugged, MakesDisplays};
use cx_look::{Look, OrdersBlock, Sight};
use cx_look_lines::Report;
use cx_look_orders::orders_text;
use cx_look_steps::Seen;
use cx_look_tables::{hidden_items, hidden_rows};
use cx_orders::{Keys, Orders};
use cx_region::{Region, TurnReply};
use cx_script_actions::screen_text;
use cx_script_io::{Ending, last_line, split_line, strip_carriage_return};
use cx_storage::Store;
use std::alloc::{AllocError, Global};

/// Adds a line.
fn push_line(report: &mut Report, line: &[u8]) -> Result<(), AllocError>
    ensures { OnOk result (report.new ≡ report.old ++ line.now ∷ []) }
{
    let line = line.to_vec(report.alloc())?;
    report.push(line)
}

/// Adds the line that the bytes after the last line feed are.
fn push_last(report: &mut Report, bytes: &[u8]) -> Result<(), AllocError>
    ensures { OnOk result (report.new ≡ report.old ++ last_met AtEnd bytes.now) }
{
    match last_line(bytes, Ending::AtEnd) {
        Some(line) => push_line(report, line),
        None => Ok(()),
    }
}

/// Adds the lines of a text.
#[tactic(auto, using(crate::proofs::OrdersLemmas::line_pushed, crate::proofs::OrdersLemmas::last_pushed))]
fn push_text(report: &mut Report, text: &[u8]) -> Result<(), AllocError>
    ensures { OnOk result (report.new ≡ report.old ++ lines_met AtEnd text.now) }
{
    let mut rest = text;
    while let Some((line, more)) = split_line(rest) {
        push_line(report, strip_carriage_return(line))?;
        rest = more;
    }
    push_last(report, rest)
}

/// The lines that SCREEN writes of a terminal.
fn screen_lines<S: Store + Drop>(
    alloc: Global,
    region: &Region<S>,
    name: Name4,
) -> Result<Report, AllocError>
    ensures { IfOk result (λ report. report ≡ lines_met AtEnd (screen_text region.now name)) }
{
    let text = screen_text(alloc, region, name)?;
    let mut report = Report::new(alloc);
    push_text(&mut report, &text)?;
    Ok(report)
}

/// What a look shows of bytes by characters that other bytes have too, or cuts.
fn hidden_lines<S: Store + Drop>(
    alloc: Global,
    region: &Region<S>,
    look: &Look,
) -> Result<Report, AllocError>
    ensures { IfOk result (λ report. report ≡ hidden_lines region.now look.now) }
{
    match look {
        Look::Queue(name) => hidden_items(alloc, region, *name),
        _ => Ok(Report::new(alloc)),
    }
}

/// A screen, with the bytes of rows that other bytes would show alike.
fn seen_screen<S: Store + Drop>(
    alloc: Global,
    region: &Region<S>,
    name: Name4,
) -> Result<Report, AllocError>
    ensures { let screen = lines_met AtEnd (screen_text region.now name) in
        IfOk result (λ report. report ≡ screen ++ hidden_rows region.now name) }
{
    let mut report = screen_lines(alloc, region, name)?;
    let hidden = hidden_rows(alloc, region, name)?;
    report.append(&hidden)?;
    Ok(report)
}

/// What a look has to say, with the bytes that it hides.
fn seen_look<S: Store + Drop, M: MakesDisplays>(
    alloc: Global,
    looking: &LookedRegion<S, M>,
    region: &Region<S>,
    look: &Look,
) -> Result<Report, AllocError>
    ensures { let Says = AreLookLines look.now (at_region looking.now region.now) in
        IfOk result (SeenThen Says (λ others. others ≡ hidden_lines region.now look.now)) }
{
    let mut report = look_lines(alloc, looking, region, look)?;
    let hidden = hidden_lines(alloc, region, look)?;
    report.append(&hidden)?;
    Ok(report)
}

/// One thing to be seen of a region, in place of the one that is looked at.
#[tactic(auto, unfolding(crate::specs::Orders::IsSeen))]
fn sight_lines<S: Store + Drop, M: MakesDisplays>(
    alloc: Global,
    looking: &LookedRegion<S, M>,
    region: &Region<S>,
    sight: &Sight,
) -> Result<Report, AllocError>
    ensures { let state = at_region looking.now region.now in
        IfOk result (IsSeen (λ l. AreLookLines l state) region.now sight.now) }
{
    match sight {
        Sight::Screen(name) => seen_screen(alloc, region, *name),
        Sight::Look(look) => seen_look(alloc, looking, region, look),
    }
}

/// One after the other.
#[tactic(auto, using(crate::proofs::OrdersLemmas::seen_all, crate::proofs::OrdersLemmas::seen_before_all, crate::proofs::OrdersLemmas::seen_one_more))]
fn sights_lines<S: Store + Drop, M: MakesDisplays>(
    alloc: Global,
    looking: &LookedRegion<S, M>,
    region: &Region<S>,
    sights: &[Sight],
) -> Result<Report, AllocError>
    ensures { let state = at_region looking.now region.now in
        IfOk result (AreSeen (λ l. AreLookLines l state) region.now sights.now) }
{
    let mut report = Report::new(alloc);
    let mut rest = sights;
    while let Some((sight, later)) = rest.split_first() {
        let shown = sight_lines(alloc, looking, region, sight)?;
        report.append(&shown)?;
        rest = later;
    }
    Ok(report)
}

/// What is to be seen of a region in place of the one that is looked at.
#[derive(Drop)]
pub(crate) struct Sights<'a, S: Store + Drop, M: MakesDisplays> {
    pub looking: &'a LookedRegion<S, M>,
    pub sights: &'a [Sight],
}

impl<'a, S: Store + Drop, M: MakesDisplays> Seen<S> for Sights<'a, S, M> {
    ghost shows = { λ it region. AreSeen (λ l. AreLookLines l (at_region it.looking.now region)) region it.sights.now };

    ghost tells = { λ it. turn_told it.looking.now.sources };

    fn seen(&self, alloc: Global, region: &Region<S>) -> Result<Report, AllocError> {
        sights_lines(alloc, self.looking, region, self.sights)
    }

    fn told(
        &self,
        alloc: Global,
        region: &Region<S>,
        name: Name4,
        reply: TurnReply,
    ) -> Result<Option<List<u8>>, AllocError> {
        let looking = self.looking;
        turn_told(alloc, &looking.sources, region, name, reply)
    }

    fn shows_decide(&self) {
        cx_look_tasks::laws::texts_decide();
        cx_look_ahead::laws::the_next_turn_is_shown();
        cx_look_ahead::laws::turns_reach_it();
    }
}

/// The terminals that have EDF on, in the order of their definition.
pub(crate) fn names_with_edf<S: Store + Drop, M: MakesDisplays>(
    alloc: Global,
    state: &Debugged<S, M>,
) -> Result<Vec<Name4>, AllocError>
    ensures { IfOk result (λ names. names.items ≡ names_with_edf state.now) }
{
    let mut names = Vec::new(alloc);
    let terminals = state.region().terminals();
    for (name, _terminal) in terminals.iter() {
        if state.session(*name).is_some() {
            names.push(*name)?;
        }
    }
    Ok(names)
}

/// The screen of each terminal.
fn screens<S: Store + Drop>(alloc: Global, region: &Region<S>) -> Result<Vec<Sight>, AllocError>
    ensures { IfOk result (λ all. all.items ≡ map (λ t. sight.Screen t.0) region.now.terminals) }
{
    let mut all = Vec::new(alloc);
    let terminals = region.terminals();
    for (name, _terminal) in terminals.iter() {
        all.push(Sight::Screen(*name))?;
    }
    Ok(all)
}

/// What a block says is to be seen; where it says nothing, each terminal's screen.
pub(crate) fn sights_of<S: Store + Drop>(
    alloc: Global,
    sights: Vec<Sight>,
    region: &Region<S>,
) -> Result<Vec<Sight>, AllocError>
    ensures { IfOk result (λ all. all.items ≡ sights_of sights.items region.now) }
{
    if sights.is_empty() {
        screens(alloc, region)
    } else {
        Ok(sights)
    }
}

/// What is written for a block of ORDERS.
pub(crate) fn orders_written<S: Store + Drop, M: MakesDisplays>(
    alloc: Global,
    looking: &LookedRegion<S, M>,
    block: OrdersBlock,
) -> Result<Vec<u8>, AllocError>
    requires most { 1 ≤ block.most }
    requires keys_in_range { AllByRecursion IsFew block.keys }
    ensures { IfOk result (λ text. ShowsOrders block looking.now text.items) }
{
    let OrdersBlock {
        most,
        typed_ahead,
        keys,
        sights,
    } = block;
    let region = looking.state.region();
    let keys = Keys {
        typed_ahead,
        lines: keys,
    };
    let orders = Orders::new(alloc, keys);
    let sights = sights_of(alloc, sights.into_vec(), region)?;
    let edf = names_with_edf(alloc, &looking.state)?;
    let seen = Sights {
        looking,
        sights: sights.as_slice(),
    };
    let report = orders_text(region, &orders, most as usize, edf.as_slice(), &seen)?;
    let text = report.marked()?;
    Ok(text)
}
