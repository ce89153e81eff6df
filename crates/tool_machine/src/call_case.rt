//! What a case says, line by line.

use cx_base::ListedCondition;
use std::alloc::{AllocError, Global};

/// A field of a section, by its definition, as `CL16`, `H`, `F` or `0H`.
#[derive(Drop)]
pub struct Field {
    pub section: String,
    pub name: String,
    pub definition: String,
}

/// A DSECT of the program's own, with the address that it has.
#[derive(Drop)]
pub struct Section {
    pub name: String,
    pub address: u32,
}

/// What a register holds at the first instruction, as an expression.
#[derive(Drop)]
pub struct Register {
    /// The register's number.
    pub number: usize,
    /// An expression, whose value it holds.
    pub value: String,
}

/// A program with one EXEC statement, the machine that it is run on, and what must be found at the call.
#[derive(Drop)]
pub struct Case {
    /// `CASE`.
    pub name: String,
    /// `FIELD`: section, name, definition. The control section is P.
    pub fields: Vec<Field>,
    /// `SECTION`: name and address.
    pub sections: Vec<Section>,
    /// `LINE`: what is in the control section before the first instruction.
    pub lines: Vec<String>,
    /// `CODE`: an instruction before the statement.
    pub code: Vec<String>,
    /// `EXEC`: the statement's operand.
    pub statement: String,
    /// `AT`: where the program is loaded.
    pub at: u32,
    /// `STORAGE`: where DFHEISTG is; not given, at the end of storage.
    pub storage: Option<u32>,
    /// `REGISTER`: number and value. 3, 11 and 13 hold the addresses of the program, of the EIB and of DFHEISTG if
    /// nothing else is said.
    pub registers: Vec<Register>,
    /// `LIMIT`: how many instructions may be performed. Not given, as many as are made of the statement, which are all
    /// needed.
    pub limit: Option<u32>,
    /// `ENDS`: where the run ends: AtEntry, Limit, Interrupt.
    pub ends: String,
    /// `COMMAND`, `FIRST`: the command and its option byte 1.
    pub command: String,
    pub first: u8,
    /// `LISTED`: a condition's number, and whether a label belongs to it.
    pub listed: Vec<ListedCondition>,
    /// `ARGUMENT`: the arguments' expressions in the order of their words.
    pub arguments: Vec<String>,
}

/// A hexadecimal number; 0 where it is none.
fn hexadecimal(text: &str) -> u32 {
    u32::from_str_radix(text, 16).unwrap_or(0)
}

/// A hexadecimal byte; 0 where it is none.
fn byte(text: &str) -> u8 {
    u8::from_str_radix(text, 16).unwrap_or(0)
}

/// The first word, and what follows it.
fn cut(text: &str) -> (&str, &str) {
    text.split_once(' ').unwrap_or((text, ""))
}

impl Case {
    /// A case of which no line is known: the program is at 010000.
    pub fn new(alloc: Global) -> Case {
        Case {
            name: String::new(alloc),
            fields: Vec::new(alloc),
            sections: Vec::new(alloc),
            lines: Vec::new(alloc),
            code: Vec::new(alloc),
            statement: String::new(alloc),
            at: 0x01_0000,
            storage: None,
            registers: Vec::new(alloc),
            limit: None,
            ends: String::new(alloc),
            command: String::new(alloc),
            first: 0,
            listed: Vec::new(alloc),
            arguments: Vec::new(alloc),
        }
    }

    /// Takes a line. Whether the case ends with it.
    pub fn take(&mut self, alloc: Global, line: &str) -> Result<bool, AllocError> {
        let (word, rest) = cut(line);
        match word {
            "DONE" => return Ok(true),
            "CASE" => self.name.push_str(rest)?,
            "FIELD" | "SECTION" | "LINE" | "CODE" | "EXEC" => self.take_source(alloc, word, rest)?,
            "AT" => self.at = hexadecimal(rest),
            "STORAGE" => self.storage = Some(hexadecimal(rest)),
            "REGISTER" => self.take_register(alloc, rest)?,
            "LIMIT" => self.limit = rest.parse::<u32>().ok(),
            _ => self.take_end(alloc, word, rest)?,
        }
        Ok(false)
    }

    /// Takes a line on the source.
    fn take_source(&mut self, alloc: Global, word: &str, rest: &str) -> Result<(), AllocError> {
        match word {
            "FIELD" => self.take_field(alloc, rest)?,
            "SECTION" => {
                let (name, address) = cut(rest);
                let name = String::from_str(alloc, name)?;
                let address = hexadecimal(address);
                self.sections.push(Section { name, address })?;
            }
            "LINE" => self.lines.push(String::from_str(alloc, rest)?)?,
            "CODE" => self.code.push(String::from_str(alloc, rest)?)?,
            _ => self.statement.push_str(rest)?,
        }
        Ok(())
    }

    /// Takes a field.
    fn take_field(&mut self, alloc: Global, rest: &str) -> Result<(), AllocError> {
        let (section, rest) = cut(rest);
        let (name, definition) = cut(rest);
        self.fields.push(Field {
            section: String::from_str(alloc, section)?,
            name: String::from_str(alloc, name)?,
            definition: String::from_str(alloc, definition)?,
        })?;
        Ok(())
    }

    /// Takes a register.
    fn take_register(&mut self, alloc: Global, rest: &str) -> Result<(), AllocError> {
        let (number, value) = cut(rest);
        let number = number.parse::<usize>().unwrap_or(16);
        let value = String::from_str(alloc, value)?;
        self.registers.push(Register { number, value })?;
        Ok(())
    }

    /// Takes a line on what must be found.
    fn take_end(&mut self, alloc: Global, word: &str, rest: &str) -> Result<(), AllocError> {
        match word {
            "ENDS" => self.ends.push_str(rest)?,
            "COMMAND" => self.command.push_str(rest)?,
            "FIRST" => self.first = byte(rest),
            "LISTED" => {
                let (number, label) = cut(rest);
                let number = byte(number);
                let label = byte(label);
                self.listed.push(ListedCondition { number, label })?;
            }
            "ARGUMENT" => self.arguments.push(String::from_str(alloc, rest)?)?,
            _ => self.name.push_str(" has a line that is none")?,
        }
        Ok(())
    }
}
