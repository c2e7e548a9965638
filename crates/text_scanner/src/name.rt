// A name or a reserved word.
ghost use Rattle.std.specs.Prelude.{◌≡◌};
ghost use Rattle.paper.specs.Words.{scan_name};
ghost use Rattle.text_scanner.specs.Answers.{scan_of};

use super::{Flaw, Scan, Token};
use layout::limits;
use layout::rules::Rule;
use text_reserved::read_name;

pub(crate) fn scan_name(text: &[u8]) -> Scan
    ensures { scan_of result ≡ scan_name text.now }
{
    let n = read_name(text);
    let length = n.length;
    if limits::NAME < length {
        return Err(Flaw::at_start(Rule::Malformed));
    }
    Ok(Token {
        sort: n.sort,
        length,
        value: 0,
    })
}
