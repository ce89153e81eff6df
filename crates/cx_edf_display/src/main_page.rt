//! The main page of a display.
ghost use Rattle.std.specs.Prelude.{◌≡◌, ◌∷◌, [], ◌+◌, ◌<◌, ◌≤◌, ◌^◌, Some, codes, map};
ghost use Rattle.std.specs.List.{AllByRecursion};
ghost use Rattle.std.specs.Option.{option_and_then};
ghost use Rattle.cx_storage.specs.Address.{address_in};
ghost use Rattle.cx_storage.specs.Word.{halfword_at, word_at};
ghost use Rattle.cx_base.specs.Texts.{shown_text};
ghost use Rattle.cx_region_bytes.specs.Rows.{quarters};
ghost use Rattle.cx_edf_display.specs.Texts.{with_page_line, with_page_lines};
ghost use Rattle.cx_edf_display.specs.Displays.{argument, arguments, arguments_due, displayed_command, eib_bytes, eib_line, heading, list_of_seen, main_page, name_of_function, outcome, registers, state_line, stop_status, task_heading, task_lines};

use crate::seen::{Seen, halfword, word};
use cx_base::{Command, EibField, Page, decimal, hexadecimal, shown_bytes};
use cx_ebcdic::Name4;
use cx_edf::{Ending, StopPoint};
use cx_region::Region;
use cx_region_bytes::{character_group, hex_at, hex_group, read_bytes};
use cx_storage::{Store, address_after, address_in};

/// Line 24.
const KEYS: &[u8] =
    b"ENTER GO ON  PF3 END  PF4 SUPPRESS  PF5 STORAGE  PF6 USER  PF9 STOP  PF10 BACK";

/// The main page: what is due or was done, and what the task has, where it is seen.
pub(crate) fn main_page<S: Store + Drop>(
    region: &Region<S>,
    name: Name4,
    kind: &StopPoint,
    task: &Option<Seen>,
) -> Page
    ensures { result ≡ main_page region.now.shared.storage name kind.now task.now }
{
    let mut page = Page::blank();
    put_heading(&mut page, name, task);
    page.put_line(2, &[b"STATUS ", stop_status(kind)]);
    put_task(&mut page, region, kind, task);
    put_outcome(&mut page, kind);
    page.put_line(24, &[KEYS]);
    page
}

/// Line 1.
fn put_heading(page: &mut Page, name: Name4, task: &Option<Seen>)
    ensures { page.new ≡ with_page_line page.old 1 (task_heading name task.now) }
{
    let terminal = shown_bytes(&name.bytes());
    let Some(task) = task else {
        return put_names(page, *b"    ", *b"        ", *b"       ", terminal);
    };
    let tran = shown_bytes(&task.tran.bytes());
    let program = shown_bytes(&task.program.bytes());
    put_names(page, tran, program, decimal::<7>(task.number), terminal);
}

/// Line 1 of these texts.
fn put_names(page: &mut Page, tran: [u8; 4], program: [u8; 8], number: [u8; 7], terminal: [u8; 4])
    ensures { page.new ≡ with_page_line page.old 1 (heading tran program number terminal) }
{
    page.put_line(
        1,
        &[
            b"TRANSACTION ",
            &tran,
            b"  PROGRAM ",
            &program,
            b"  TASK ",
            &number,
            b"  TERMINAL ",
            &terminal,
        ],
    );
}

/// Lines 3 to 20, where there is a task.
#[tactic(auto, using(crate::proofs::LineLemmas::lines_joined))]
fn put_task<S: Store + Drop>(
    page: &mut Page,
    region: &Region<S>,
    kind: &StopPoint,
    task: &Option<Seen>,
)
    ensures { page.new ≡ with_page_lines page.old (task_lines region.now.shared.storage kind.now task.now) }
{
    let Some(task) = task else {
        return;
    };
    page.put_line(3, &[b"COMMAND ", displayed_command(region, kind, task)]);
    put_arguments_due(page, region, kind, task);
    put_registers(page, task);
    put_state(page, task);
    put_eib(page, region, task);
}

/// What line 2 says.
fn stop_status(kind: &StopPoint) -> &'static [u8]
    ensures { result.now ≡ stop_status kind.now }
{
    match kind {
        StopPoint::Before => b"ABOUT TO EXECUTE COMMAND",
        StopPoint::After(_) => b"COMMAND EXECUTION COMPLETE",
        StopPoint::Exit(_) => b"ABEND EXIT TAKEN",
        StopPoint::Over(Ending::Ended) => b"TASK TERMINATION",
        StopPoint::Over(Ending::Abended(_)) => b"TASK ABENDED",
    }
}

/// The command's name on line 3: before it by the block, after it by EIBFN.
#[tactic(auto, unfolding(crate::specs::Displays::displayed_command))]
fn displayed_command<S: Store + Drop>(
    region: &Region<S>,
    kind: &StopPoint,
    task: &Seen,
) -> &'static [u8]
    ensures { result.now ≡ displayed_command region.now.shared.storage task.now kind.now }
{
    match kind {
        StopPoint::Before => name_of_function(function_due(region, task)),
        StopPoint::After(_) => name_of_function(halfword(
            region,
            address_after(task.eib, EibField::Fn.offset()),
        )),
        StopPoint::Exit(_) => b"",
        StopPoint::Over(_) => b"",
    }
}

/// The function value of the block that register 1 leads to.
fn function_due<S: Store + Drop>(region: &Region<S>, task: &Seen) -> Option<u16>
    ensures { result ≡ option_and_then (λ w. halfword_at region.now.shared.storage (address_in w))
        (word_at region.now.shared.storage (list_of_seen task.now)) }
{
    let first = word(region, address_in(task.regs[1]))?;
    halfword(region, address_in(first))
}

/// The name of a function's command; a question mark where there is none.
#[tactic(auto, unfolding(crate::specs::Displays::name_of_function))]
fn name_of_function(function: Option<u16>) -> &'static [u8]
    ensures { result.now ≡ name_of_function function }
{
    let Some(function) = function else {
        return b"?";
    };
    let Some(command) = Command::from_function(function) else {
        return b"?";
    };
    command.name().as_bytes()
}

/// The numbers of the arguments that are shown.
const NUMBERS: [u32; 11] = [0, 1, 2, 3, 4, 5, 6, 7, 8, 9, 10];

/// Lines 4 to 14, before a command.
fn put_arguments_due<S: Store + Drop>(
    page: &mut Page,
    region: &Region<S>,
    kind: &StopPoint,
    task: &Seen,
)
    ensures { page.new ≡ with_page_lines page.old (arguments_due region.now.shared.storage task.now kind.now) }
{
    match kind {
        StopPoint::Before => put_arguments(page, region, address_in(task.regs[1]), &NUMBERS),
        StopPoint::After(_) => (),
        StopPoint::Exit(_) => (),
        StopPoint::Over(_) => (),
    }
}

/// The arguments with these numbers, up to the last one of the list.
#[tactic(auto, unfolding(crate::specs::Displays::arguments))]
fn put_arguments<S: Store + Drop>(page: &mut Page, region: &Region<S>, list: u32, numbers: &[u32])
    requires { AllByRecursion (λ k. k ≤ 10) numbers.now }
    ensures { page.new ≡ with_page_lines page.old (arguments region.now.shared.storage list numbers.now) }
{
    let Some((k, rest)) = numbers.split_first() else {
        return;
    };
    let Some(argument) = word(region, address_after(list, 4 * *k)) else {
        return;
    };
    put_argument(page, region, *k, address_in(argument));
    if argument < 0x8000_0000 {
        put_arguments(page, region, list, rest);
    }
}

/// An argument's line.
fn put_argument<S: Store + Drop>(page: &mut Page, region: &Region<S>, k: u32, address: u32)
    requires { k ≤ 10 }
    ensures { page.new ≡ with_page_line page.old (k + 4) (argument region.now.shared.storage k address) }
{
    let number = decimal::<2>(k);
    let place = hexadecimal::<6>(address);
    let mut bytes = [None; 16];
    read_bytes(region, address, &mut bytes);
    let a = hex_group(&bytes, 0);
    let b = hex_group(&bytes, 4);
    let c = hex_group(&bytes, 8);
    let d = hex_group(&bytes, 12);
    let e = character_group(&bytes, 0);
    let f = character_group(&bytes, 4);
    let g = character_group(&bytes, 8);
    let h = character_group(&bytes, 12);
    page.put_line(
        k as usize + 4,
        &[
            b"ARG ", &number, b" ", &place, b"  ", &a, &b, &c, &d, b"  ", &e, &f, &g, &h,
        ],
    );
}

/// Lines 15 to 18.
fn put_registers(page: &mut Page, task: &Seen)
    ensures { page.new ≡ with_page_lines page.old (map (registers task.now.regs) quarters) }
{
    put_four(page, &task.regs, 0);
    put_four(page, &task.regs, 4);
    put_four(page, &task.regs, 8);
    put_four(page, &task.regs, 12);
}

/// Four registers on a line.
fn put_four(page: &mut Page, regs: &[u32; 16], k: u32)
    requires { k ≤ 12 }
    ensures { page.new ≡ with_page_lines page.old (registers regs.now k ∷ []) }
{
    let first = k as usize;
    let number = decimal::<2>(k);
    let a = hexadecimal::<8>(regs[first]);
    let b = hexadecimal::<8>(regs[first + 1]);
    let c = hexadecimal::<8>(regs[first + 2]);
    let d = hexadecimal::<8>(regs[first + 3]);
    page.put_line(
        15 + first / 4,
        &[b"R", &number, b" ", &a, b" ", &b, b" ", &c, b" ", &d],
    );
}

/// Line 19.
fn put_state(page: &mut Page, task: &Seen)
    ensures { page.new ≡ with_page_line page.old 19 (state_line task.now) }
{
    let code = decimal::<1>(u32::from(task.cc));
    let next = hexadecimal::<6>(task.next);
    page.put_line(19, &[b"CC ", &code, b"  NEXT ", &next]);
}

/// The bytes of a field of the EIB.
fn eib_bytes<S: Store + Drop, const N: usize>(
    region: &Region<S>,
    task: &Seen,
    field: EibField,
) -> [Option<u8>; N]
    requires { N < 2 ^ 32 }
    ensures { result ≡ eib_bytes region.now.shared.storage task.now field N }
{
    let mut bytes = [None; N];
    read_bytes(region, address_after(task.eib, field.offset()), &mut bytes);
    bytes
}

/// Line 20.
fn put_eib<S: Store + Drop>(page: &mut Page, region: &Region<S>, task: &Seen)
    ensures { page.new ≡ with_page_line page.old 20 (eib_line region.now.shared.storage task.now) }
{
    let function = eib_bytes::<S, 2>(region, task, EibField::Fn);
    let a = hex_at(&function, 0);
    let b = hex_at(&function, 1);
    let c = hex_group(&eib_bytes::<S, 4>(region, task, EibField::Resp), 0);
    let d = hex_at(&eib_bytes::<S, 1>(region, task, EibField::Aid), 0);
    let length = eib_bytes::<S, 2>(region, task, EibField::Calen);
    let e = hex_at(&length, 0);
    let f = hex_at(&length, 1);
    page.put_line(
        20,
        &[
            b"EIBFN ",
            &a,
            &b,
            b"  EIBRESP ",
            &c,
            b"  EIBAID ",
            &d,
            b"  EIBCALEN ",
            &e,
            &f,
        ],
    );
}

/// Line 21.
fn put_outcome(page: &mut Page, kind: &StopPoint)
    ensures { page.new ≡ with_page_line page.old 21 (outcome kind.now) }
{
    match kind {
        StopPoint::Before => page.put_line(21, &[]),
        StopPoint::After(condition) => {
            page.put_line(21, &[b"RESPONSE ", condition.name().as_bytes()]);
        }
        StopPoint::Exit(code) => put_abend(page, code),
        StopPoint::Over(Ending::Ended) => page.put_line(21, &[]),
        StopPoint::Over(Ending::Abended(code)) => put_abend(page, code),
    }
}

/// Line 21 at an abend.
fn put_abend(page: &mut Page, code: &Name4)
    ensures { page.new ≡ with_page_line page.old 21 (codes "ABEND " ∷ shown_text code.now ∷ []) }
{
    let code = shown_bytes(&code.bytes());
    page.put_line(21, &[b"ABEND ", &code]);
}
