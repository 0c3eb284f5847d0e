//! The fields of a line: its longest runs of bytes that are not blank.
ghost use Rattle.std.specs.Prelude.{◌≡◌, ◌-◌, ◌≤◌, ℕ, Bool, length};
ghost use Rattle.std.specs.Iterator.{at_most};
ghost use Rattle.std.specs.List.{prefix_len};
ghost use Rattle.moveon.specs.Fields.{blank, past_field, Cursor, FindsNext};
ghost use Rattle.moveon.specs.Reading.{byte_from, bytes_from, count_from, fault_past, nothing_from, past_bytes, Reads};

use crate::digits::{count_in, hex_byte};
use crate::fault::{LineFault, LineFaultKind};
use std::marker::Model;

/// What stands between two blanks, and at which column, counted from 1, it begins.
#[derive(Clone, Copy)]
pub struct Field<'a> {
    pub text: &'a [u8],
    pub column: usize,
}

/// The fields of a line, one after the other; those before the place are read.
#[derive(Drop)]
pub struct Fields<'a> {
    line: &'a [u8],
    place: usize,
}

impl<'a> Model for Fields<'a> {
    ghost Value = { Cursor };

    ghost view = { λ fields. record { line = fields.line.now; place = fields.place } };

    ghost invariant = { λ fields. fields.place ≤ length fields.line.now };
}

fn is_blank(byte: u8) -> bool
    ensures { result ≡ blank byte }
{
    matches!(byte, b' ' | b'\t')
}

/// How many bytes at the front pass a test.
fn run_length<F: Fn(u8) -> bool>(bytes: &[u8], passes: F) -> usize
    requires { F.IsAlwaysCallable passes }
    ensures is { (p : ℕ → Bool) → ((b : ℕ) (r : Bool) → F.post passes b r → r ≡ p b) → result ≡ prefix_len p bytes.now }
    ensures within { result ≤ length bytes.now }
{
    bytes.iter().take_while(|byte| passes(**byte)).count()
}

impl<'a> Iterator for Fields<'a> {
    type Item = Field<'a>;

    ghost next_gives = { FindsNext };

    ghost remaining = { λ fields. at_most (length fields.line - fields.place) };

    fn next(&mut self) -> Option<Field<'a>> {
        let start = self.place + run_length(&self.line[self.place..], is_blank);
        let end = start + run_length(&self.line[start..], |byte| !is_blank(byte));
        self.place = end;
        if start == end {
            return None;
        }
        Some(Field {
            text: &self.line[start..end],
            column: start + 1,
        })
    }
}

impl<'a> Fields<'a> {
    /// All fields of a line.
    pub fn new(line: &'a [u8]) -> Fields<'a>
        ensures { result ≡ record { line = line.now; place = 0 } }
    {
        Fields { line, place: 0 }
    }

    /// The fault that a field is missing, at the line's end.
    fn missing(&self, kind: LineFaultKind) -> LineFault
        ensures { result ≡ fault_past self.now.line kind }
    {
        LineFault {
            column: self.line.len() + 1,
            kind,
        }
    }

    /// The byte of the next field.
    fn next_byte(&mut self) -> Result<u8, LineFault>
        ensures reads { Reads byte_from self.old self.new result }
        ensures past { self.new ≡ past_field self.old }
    {
        let Some(Field { text, column }) = self.next() else {
            return Err(self.missing(LineFaultKind::MissingByte));
        };
        hex_byte(text).ok_or(LineFault {
            column,
            kind: LineFaultKind::NotHexByte,
        })
    }

    /// The bytes of the next seven fields.
    #[tactic(auto, using(crate::proofs::Locations::one_byte_more, crate::proofs::Locations::all_bytes, crate::proofs::Locations::goes_further, crate::proofs::Locations::stops_there))]
    pub fn next_bytes(&mut self) -> Result<[u8; 7], LineFault>
        ensures reads { Reads (bytes_from 7) self.old self.new result }
        ensures past { self.new ≡ past_bytes 7 self.old }
    {
        let mut bytes = [0; 7];
        for byte in bytes.iter_mut() {
            *byte = self.next_byte()?;
        }
        Ok(bytes)
    }

    /// The count of the next field.
    pub fn next_count(&mut self) -> Result<u32, LineFault>
        ensures reads { Reads count_from self.old self.new result }
        ensures past { self.new ≡ past_field self.old }
    {
        let Some(Field { text, column }) = self.next() else {
            return Err(self.missing(LineFaultKind::MissingCount));
        };
        count_in(text).map_err(|fault| LineFault {
            column,
            kind: LineFaultKind::Count(fault),
        })
    }

    /// Refuses a field more.
    pub fn nothing_more(&mut self) -> Result<(), LineFault>
        ensures is { result ≡ nothing_from self.old.line self.old.place }
        ensures past { self.new ≡ past_field self.old }
    {
        match self.next() {
            None => Ok(()),
            Some(Field { column, .. }) => Err(LineFault {
                column,
                kind: LineFaultKind::AfterCount,
            }),
        }
    }
}
