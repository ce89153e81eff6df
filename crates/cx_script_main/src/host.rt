//! What a program is started on.

ghost use Rattle.std.specs.Prelude.{◌≡◌, ℕ, List, Result, IfOk, IfSome, false, map, string_bytes};
ghost use Rattle.std.specs.Result.{result_map_both};
ghost use Rattle.cx_script_io.specs.declared.devices.DeviceFault.{DeviceFault as Fault};
ghost use Rattle.cx_script_main.specs.declared.program.Refusal.{Refusal as Why};

use crate::program::Refusal;
use cx_script::{DeviceFault, Devices, ScriptDevices, Std};
use std::fmt::Display;
use std::io::Printer;
use std::rt::{Env, Files};
use std::{env, fs, io};

/// What a program is started on: its words, the file that they may name, its standard input and output, and its
/// standard error. Each relation has the state before a call, what the call gave or took, and the state after it. Where
/// a type parameter stands for the host, nothing but that call gives it; so a contract over every host says which calls
/// a program makes, in which order.
pub trait Host {
    /// What a file's script is read from, and its transcript written to.
    type File: ScriptDevices + Drop;

    /// What the script of standard input is read from, and its transcript written to.
    type Input: ScriptDevices + Drop;

    /// The words, or why they can't be had.
    ghost gives_words: { Self → Result (List (List ℕ)) Why → Self → Type 0 };

    /// A path, and what opening its file gave.
    ghost opens: { Self → List ℕ → Result Self.File Fault → Self → Type 0 };

    /// The standard input.
    ghost takes_input: { Self → Self.Input → Self → Type 0 };

    /// A line that was to be written on standard output, and whether it was.
    ghost tells: { Self → List ℕ → Result Unit Fault → Self → Type 0 };

    /// A line that was written on standard error.
    ghost reports: { Self → List ℕ → Self → Type 0 };

    /// The words that the program was started with, its name the first. Usage where one of them is no text, Memory
    /// where an allocation failed.
    fn words(&mut self) -> Result<Vec<String>, Refusal>
        ensures { let words = result_map_both (λ it. map string_bytes it.items) (λ why. why) result in
            gives_words self.old words self.new };

    /// Opens a file: its script is to be read, and its transcript to be written. The devices have not failed. An error
    /// says that it couldn't be opened.
    fn open(&mut self, path: &str) -> Result<Self::File, DeviceFault>
        ensures opened { opens self.old path.now result self.new }
        ensures input { IfOk result (λ devices. Self.File.ScriptIn.has_failed devices ≡ false) }
        ensures output { IfOk result (λ devices. Self.File.ScriptOut.has_failed devices ≡ false) };

    /// The standard input as a script, and where its transcript is written. The devices have not failed.
    fn input(&mut self) -> Self::Input
        ensures taken { takes_input self.old result self.new }
        ensures input { Self.Input.ScriptIn.has_failed result ≡ false }
        ensures output { Self.Input.ScriptOut.has_failed result ≡ false };

    /// Writes a line on standard output. An error says that it couldn't be written.
    fn tell(&mut self, line: &str) -> Result<(), DeviceFault>
        ensures { tells self.old line.now result self.new };

    /// Writes a line on standard error, as far as it can be written.
    fn report<D: Display + Drop>(&mut self, line: D)
        ensures { IfSome (D.output line) (λ text. reports self.old text self.new) };
}

/// The machine that a program runs on. Of what its calls do the standard library states nothing.
#[derive(Drop)]
pub struct Machine<'a, R> {
    rt: &'a R,
}

impl<'a, R> Machine<'a, R> {
    /// The machine over the handle that a program's `main` is given.
    pub fn new(rt: &'a R) -> Machine<'a, R>
        ensures { result.rt ≡ rt.entry }
    {
        Machine { rt }
    }
}

impl<'a, R: Env + Files + Input + Print + Eprint + AllocGlobal> Host for Machine<'a, R> {
    type File = Devices<Std<R::File>, Std<Printer<'a, R>>>;

    type Input = Devices<Std<R::Reader>, Std<Printer<'a, R>>>;

    ghost gives_words = { λ _ _ _. Unit {0} };

    ghost opens = { λ _ _ _ _. Unit {0} };

    ghost takes_input = { λ _ _ _. Unit {0} };

    ghost tells = { λ _ _ _ _. Unit {0} };

    ghost reports = { λ _ _ _. Unit {0} };

    fn words(&mut self) -> Result<Vec<String>, Refusal> {
        let words = match env::args(self.rt) {
            Ok(words) => words,
            Err(error) if error.kind() == io::ErrorKind::OutOfMemory => return Err(Refusal::Memory),
            Err(_) => return Err(Refusal::Usage),
        };
        words.collect(self.rt.alloc()).map_err(|_| Refusal::Memory)
    }

    fn open(&mut self, path: &str) -> Result<Self::File, DeviceFault> {
        match fs::open(self.rt, path) {
            Ok(file) => Ok(Devices {
                reader: Std::new(file),
                writer: Std::new(io::writer(self.rt)),
            }),
            Err(_) => Err(DeviceFault),
        }
    }

    fn input(&mut self) -> Self::Input {
        Devices {
            reader: Std::new(self.rt.reader()),
            writer: Std::new(io::writer(self.rt)),
        }
    }

    fn tell(&mut self, line: &str) -> Result<(), DeviceFault> {
        self.rt.println(line).map_err(|_| DeviceFault)
    }

    fn report<D: Display + Drop>(&mut self, line: D) {
        let _ = self.rt.eprintln(line);
    }
}
