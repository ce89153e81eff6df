//! Queues.
ghost use Rattle.std.specs.Prelude.{◌≡◌, ◌+◌, ◌/◌, ◌<◌, ◌≤◌, ◌^◌, ◌++◌, IfSome, OnOk, [], ◌∷◌, codes, length, unwrap_or};
ghost use Rattle.std.specs.Fmt.{decimal};
ghost use Rattle.std.specs.List.{flat_map, range_with_len};
ghost use Rattle.std.specs.Option.{option_copied, option_map};
ghost use Rattle.cx_service.specs.Queues.{AreSoundQueues, item_of, item_numbered, size_of};
ghost use Rattle.cx_look_tables.specs.Queues.{item_found, item_line, items_text, item_text, queue_line, queue_text, row_line_at};
ghost use Rattle.cx_look_lines.specs.Words.{look_line};

use crate::rows::rows_text;
use cx_base::shown;
use cx_ebcdic::Name8;
use cx_look_lines::{Report, decimal, first_bytes, in_apostrophes, written_name};
use cx_service::{Queue, Queues};
use indexmap::IndexMap;
use std::alloc::AllocError;

/// The most bytes of an item that are shown in its line.
const MOST_SHOWN: usize = 64;

/// Adds the line of a queue.
fn queue_line(report: &mut Report, name: Name8, queue: &Queue) -> Result<(), AllocError>
    requires { size_of queue.now < 2 ^ 64 }
    ensures { OnOk result (report.new ≡ report.old ++ queue_line (name, queue.now)) }
{
    let name = written_name(report.alloc(), &name.bytes())?;
    let items = decimal(report.alloc(), queue.count())?;
    let bytes = decimal(report.alloc(), queue.size())?;
    let read = decimal(report.alloc(), queue.last_read())?;
    report.line(&[
        b"QUEUE", &name, b"ITEMS", &items, b"BYTES", &bytes, b"READ", &read,
    ])
}

/// Adds the line of an item.
fn item_line(report: &mut Report, n: usize, item: &[u8]) -> Result<(), AllocError>
    ensures { OnOk result (report.new ≡ report.old ++ item_line n item.now) }
{
    let length = decimal(report.alloc(), item.len())?;
    let text = shown(report.alloc(), first_bytes(item, MOST_SHOWN))?;
    let text = in_apostrophes(report.alloc(), &text)?;
    let n = decimal(report.alloc(), n)?;
    report.line(&[b"ITEM", &n, b"LENGTH", &length, &text])
}

/// Adds the line of a queue's item number n, counted from 1, where it is there.
fn item_there(report: &mut Report, queue: &Queue, n: usize) -> Result<(), AllocError>
    ensures { let more = unwrap_or (option_map (item_line n) (item_numbered n queue.now)) [] in
        OnOk result (report.new ≡ report.old ++ more) }
{
    let Some(item) = queue.item(n) else {
        return Ok(());
    };
    item_line(report, n, item.as_slice())
}

/// Adds the lines of a queue's items.
#[tactic(auto, using(crate::proofs::ItemLemmas::next_item))]
fn items_text(report: &mut Report, queue: &Queue) -> Result<(), AllocError>
    ensures { OnOk result (report.new ≡ report.old ++ items_text 1 queue.now.items) }
{
    for i in 0..queue.count() {
        item_there(report, queue, i + 1)?;
    }
    Ok(())
}

/// Adds the lines of some queues.
pub(crate) fn queue_lines(
    report: &mut Report,
    queues: &IndexMap<Name8, Queue>,
) -> Result<(), AllocError>
    requires { AreSoundQueues queues.now.entries }
    ensures { OnOk result (report.new ≡ report.old ++ flat_map queue_line queues.now.entries) }
{
    for (name, queue) in queues.iter() {
        queue_line(report, *name, queue)?;
    }
    Ok(())
}

/// Adds the lines of a queue and its items; NONE where there is no such queue.
#[tactic(auto, unfolding(crate::specs::Queues::queue_text))]
pub(crate) fn queue_text(
    report: &mut Report,
    queues: &Queues,
    name: Name8,
) -> Result<(), AllocError>
    ensures { OnOk result (report.new ≡ report.old ++ queue_text queues.now name) }
{
    let Some(queue) = queues.all().get(&name) else {
        let name = written_name(report.alloc(), &name.bytes())?;
        return report.line(&[b"QUEUE", &name, b"NONE"]);
    };
    queue_line(report, name, queue)?;
    items_text(report, queue)
}

/// Adds the lines of an item, as a whole.
fn whole_item(report: &mut Report, name: &[u8], n: &[u8], item: &[u8]) -> Result<(), AllocError>
    requires { length item.now ≤ 32767 }
    ensures { let words = codes "ITEM" ∷ n.now ∷ codes "LENGTH" ∷ decimal (length item.now) ∷ [] in
        let rows = flat_map (row_line_at item.now) (range_with_len 0 ((length item.now + 15) / 16)) in
        OnOk result (report.new ≡ report.old ++ look_line (codes "QUEUE" ∷ name.now ∷ words) ++ rows) }
{
    let length = decimal(report.alloc(), item.len())?;
    report.line(&[b"QUEUE", name, b"ITEM", n, b"LENGTH", &length])?;
    rows_text(report, item)
}

/// The bytes of a queue's item number n, counted from 1; None where there is no such item or queue.
#[tactic(auto, using(crate::proofs::ItemLemmas::few_bytes))]
fn item_of(queues: &Queues, name: Name8, n: usize) -> Option<&[u8]>
    ensures value { option_map (λ item. item.now) result ≡ item_of queues.now name n }
    ensures at_most_32767 { IfSome result (λ item. length item.now ≤ 32767) }
{
    let queue = queues.all().get(&name)?;
    let item = queue.item(n)?;
    Some(item.as_slice())
}

/// Adds the lines of a queue's item number n; NONE where there is no such item or queue.
#[tactic(auto, unfolding(crate::specs::Queues::item_text))]
pub(crate) fn item_text(
    report: &mut Report,
    queues: &Queues,
    name: Name8,
    n: usize,
) -> Result<(), AllocError>
    ensures { OnOk result (report.new ≡ report.old ++ item_text queues.now name n) }
{
    let item = item_of(queues, name, n);
    let name = written_name(report.alloc(), &name.bytes())?;
    let n = decimal(report.alloc(), n)?;
    match item {
        Some(item) => whole_item(report, &name, &n, item),
        None => report.line(&[b"QUEUE", &name, b"ITEM", &n, b"NONE"]),
    }
}
