//! An argument that is no number, in words.

ghost use Rattle.std.specs.Prelude.{◌≡◌, ◌++◌, find, option_copied, OnOk};
ghost use Rattle.explained_calls.specs.LineFaults.{is_bad_number, number_line};

use crate::placed_tokens::Token;
use crate::said;
use crate::shown::Shortened;
use crate::words::{Line, Words};
use cvl_base::name::is_name_text;
use cvl_base::{Memory, NoResources};
use line_reader::line_tokens::is_boolean_token;
use line_reader::number::number;

/// Whether an argument is a number that is malformed or does not fit 32 bits.
fn is_bad_number(token: &[u8]) -> bool
    ensures { result ≡ is_bad_number token.now }
{
    !is_name_text(token) && !is_boolean_token(token) && number(token).is_none()
}

/// The first argument that is a bad number.
fn bad_number<'t, 'l>(arguments: &'t [Token<'l>]) -> Option<&'t Token<'l>>
    ensures { option_copied result ≡ find (λ token. is_bad_number token.bytes) arguments.now }
{
    arguments.iter().find(|token| is_bad_number(token.bytes()))
}

/// Appends the line on the first argument that is a bad number.
pub(crate) fn put_bad_number<A: Memory>(
    arguments: &[Token<'_>],
    text: &mut Vec<u8, A>,
) -> Result<(), NoResources>
    ensures { OnOk result (text.new.items
        ≡ text.old.items ++ number_line (find (λ token. is_bad_number token.bytes) arguments.now)) }
{
    match bad_number(arguments) {
        None => Ok(()),
        Some(token) => {
            let end = b" is no integer from -2147483648 to 2147483647";
            Line(said![Shortened(token.bytes()), end]).put(text)
        }
    }
}
