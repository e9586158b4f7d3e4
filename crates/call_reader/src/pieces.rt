//! An input cut into pieces at white space. Each piece has a thread of its own to read it.

ghost use Rattle.std.specs.Prelude.{◌≡◌, ◌≤◌, ◌++◌, [], false, length, map};
ghost use Rattle.line_reader.specs.Tokens.{begins_in_token, is_in_token};
ghost use Rattle.call_reader.specs.Inputs.{input_class};
ghost use Rattle.call_reader.specs.Pieces.{IsFrontFor, numbers_of, or_zero};
ghost use Rattle.fresh.specs.Found.{first_without};
ghost use Rattle.fresh.specs.Places.{stretch};

use crate::inputs::{InputBytes, first_number, token_count};
use fresh::{Part, Run, first_found};
use line_reader::token::run_length;
use sharing::share_of_first;
use value_texts::Cut;

/// A piece of an input. No token continues in the next piece.
#[derive(Clone, Copy)]
pub(crate) struct Piece<'a> {
    pub(crate) bytes: &'a [u8],
}

/// Writes the numbers of the bytes' tokens, a zero for each token that is no number, and returns the place of the first such
/// token.
fn read_piece(bytes: &[u8], run: Run<i32>) -> (Run<i32>, Option<usize>)
    requires empty { run.items ≡ [] }
    requires room { run.room ≡ length (numbers_of bytes.now) }
    ensures run { result.0 ≡ stretch run.block run.first (map or_zero (numbers_of bytes.now)) 0 }
    ensures found { result.1 ≡ first_without run.first (numbers_of bytes.now) }
{
    let mut run = run;
    let mut wrong = None;
    let mut rest = bytes;
    while let Some((_token, number, others)) = first_number(rest) {
        wrong = first_found(wrong, number, run.next_place());
        run.push(number.unwrap_or(0));
        rest = others;
    }
    (run, wrong)
}

impl<'a> Part<i32> for Piece<'a> {
    ghost use Rattle.std.specs.Prelude.{map};
    ghost use Rattle.fresh.specs.Found.{first_without};
    ghost use Rattle.call_reader.specs.Pieces.{numbers_of, or_zero};

    ghost items = { λ piece. map or_zero (numbers_of piece.bytes.now) };

    ghost found = { λ piece first. first_without first (numbers_of piece.bytes.now) };

    fn count(&self) -> usize {
        token_count(self.bytes)
    }

    fn write(&self, run: Run<i32>) -> (Run<i32>, Option<usize>)
        requires empty { run.items ≡ [] }
        requires room { run.room ≡ length (map or_zero (numbers_of self.now.bytes.now)) }
        ensures run { result.0 ≡ stretch run.block run.first (map or_zero (numbers_of self.now.bytes.now)) 0 }
        ensures found { result.1 ≡ first_without run.first (numbers_of self.now.bytes.now) }
    {
        read_piece(self.bytes, run)
    }
}

/// The bytes in two; the second begins with white space, or is empty. The cut is where the share of one of `threads` threads
/// ends, or at the end of the token there.
fn cut_near(bytes: &[u8], threads: usize) -> (&[u8], &[u8])
    requires { 1 ≤ threads }
    ensures whole { result.0.now ++ result.1.now ≡ bytes.now }
    ensures between { begins_in_token input_class result.1.now ≡ false }
    ensures front { IsFrontFor 1 threads (λ b. is_in_token (input_class b)) bytes.now result.0.now }
{
    let place = share_of_first(1, threads, bytes.len());
    let (_front, back) = bytes.split_at(place);
    bytes.split_at(place + run_length::<InputBytes>(back))
}

#[tactic(auto, using(crate::proofs::PieceWalk::items_cut, crate::proofs::PieceWalk::found_cut))]
impl<'a> Cut<i32> for Piece<'a> {
    ghost use Rattle.std.specs.Prelude.{◌≡◌, ◌++◌};
    ghost use Rattle.line_reader.specs.Tokens.{is_in_token};
    ghost use Rattle.call_reader.specs.Inputs.{input_class};
    ghost use Rattle.call_reader.specs.Pieces.{IsFrontFor};

    ghost IsCut = { λ piece parts front others. (front.bytes.now ++ others.bytes.now ≡ piece.bytes.now)
        × IsFrontFor 1 parts (λ b. is_in_token (input_class b)) piece.bytes.now front.bytes.now };

    fn cut(self, parts: usize) -> (Piece<'a>, Piece<'a>) {
        let (front, others) = cut_near(self.bytes, parts);
        (Piece { bytes: front }, Piece { bytes: others })
    }
}
