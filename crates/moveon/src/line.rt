//! What a line of the input asks.
ghost use Rattle.std.specs.Prelude.{◌≡◌};
ghost use Rattle.moveon.specs.Fields.{without_last};
ghost use Rattle.moveon.specs.Written.{AsWritten};
ghost use Rattle.moveon.specs.Reading.{request_in, asked, reading};

use crate::fault::LineFault;
use crate::field::Fields;

/// The bytes of registers 9 to 15, and the seconds to move them on.
#[derive(Clone, Copy, PartialEq, Eq, Debug)]
pub struct Request {
    pub locations: [u8; 7],
    pub seconds: u32,
}

fn request_in(line: &[u8]) -> Result<Request, LineFault>
    ensures { result ≡ request_in line.now }
{
    let mut fields = Fields::new(line);
    let locations = fields.next_bytes()?;
    let seconds = fields.next_count()?;
    fields.nothing_more()?;
    Ok(Request { locations, seconds })
}

fn asked_by(line: &[u8]) -> Result<Option<Request>, LineFault>
    ensures { result ≡ asked line.now }
{
    if Fields::new(line).next().is_none() {
        return Ok(None);
    }
    request_in(line).map(Some)
}

fn without_last(bytes: &[u8], last: u8) -> &[u8]
    ensures { result.now ≡ without_last last bytes.now }
{
    bytes.strip_suffix(&[last]).unwrap_or(bytes)
}

/// What a line asks, with its newline or without; nothing where it has only blanks.
pub fn parse(line: &[u8]) -> Result<Option<Request>, LineFault>
    ensures is { result ≡ reading line.now }
    ensures written { AsWritten line.now result }
{
    asked_by(without_last(without_last(line, b'\n'), b'\r'))
}
