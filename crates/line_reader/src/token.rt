//! Tokens: runs of bytes between blanks.

ghost use Rattle.std.specs.Prelude.{◌≡◌, ◌<◌, ◌≤◌, [], length, take, drop, filter, false, not, IsTrue, MatchOption, IfSome};
ghost use Rattle.std.specs.List.{concat, list_all};
ghost use Rattle.line_reader.specs.Numbers.{is_empty};
ghost use Rattle.line_reader.specs.Tokens.{tokens_by, AreTokens, IsFirstToken, is_blank, is_in_token, begins_in_token};
ghost use Rattle.line_reader.specs.Tokens.{begins_with_blank};

/// What a byte means to the tokens.
#[derive(Clone, Copy, Debug, PartialEq, Eq)]
pub enum ByteClass {
    /// It stands between tokens.
    Blank,
    /// It is a token of its own.
    Alone,
    /// It belongs to a run, and a longest run is a token.
    InToken,
}

/// The class of each byte, for one grammar.
pub trait Classes {
    ghost use Rattle.std.specs.Prelude.{ℕ};
    ghost use Rattle.line_reader.specs.declared.token.ByteClass.{ByteClass};

    ghost class_of: { ℕ → ByteClass };

    /// The class of a byte.
    fn class_of(byte: u8) -> ByteClass
        ensures { result ≡ class_of byte };
}

/// How many blanks the bytes begin with.
#[inline(always)]
pub fn blanks<C: Classes>(bytes: &[u8]) -> usize
    ensures within { result ≤ length bytes.now }
    ensures tokens { tokens_by C.class_of (drop result bytes.now) ≡ tokens_by C.class_of bytes.now }
    ensures longest { begins_with_blank C.class_of (drop result bytes.now) ≡ false }
{
    for (i, byte) in bytes.iter().enumerate() {
        if C::class_of(*byte) != ByteClass::Blank {
            return i;
        }
    }
    bytes.len()
}

/// Whether the bytes begin with one that is part of a run.
#[inline(always)]
pub fn begins_in_token<C: Classes>(bytes: &[u8]) -> bool
    ensures { result ≡ begins_in_token C.class_of bytes.now }
{
    match bytes.first() {
        Some(byte) => C::class_of(*byte) == ByteClass::InToken,
        None => false,
    }
}

/// The length of the run with which the bytes begin.
#[inline]
pub fn run_length<C: Classes>(bytes: &[u8]) -> usize
    ensures within { result ≤ length bytes.now }
    ensures run { IsTrue (list_all (λ b. is_in_token (C.class_of b)) (take result bytes.now)) }
    ensures longest { begins_in_token C.class_of (drop result bytes.now) ≡ false }
{
    for (i, byte) in bytes.iter().enumerate() {
        if C::class_of(*byte) != ByteClass::InToken {
            return i;
        }
    }
    bytes.len()
}

/// The first token of the bytes, and what stands after it; none if there is no token.
pub fn first_token<C: Classes>(bytes: &[u8]) -> Option<(&[u8], &[u8])>
    ensures tokens { MatchOption result (tokens_by C.class_of bytes.now ≡ [])
        (λ t. IsFirstToken C.class_of bytes.now t.0.now t.1.now) }
    ensures shorter { IfSome result (λ t. length t.1.now < length bytes.now) }
    ensures first { IfSome result (λ t. 0 < length t.0.now) }
{
    let (_blank, rest) = bytes.split_at(blanks::<C>(bytes));
    let (first, _others) = rest.split_first()?;
    let length = match C::class_of(*first) {
        ByteClass::InToken => run_length::<C>(rest),
        ByteClass::Alone | ByteClass::Blank => 1,
    };
    Some(rest.split_at(length))
}

/// What the tokens of any bytes are: all bytes that aren't blank, in order, in lists that are not empty. A blank stands between
/// tokens, a lone byte is a token of its own, and a longest run is one token. It does nothing: its contract says so of the
/// definition.
#[tactic(auto, using(crate::proofs::TokenWalk::token_laws))]
pub fn token_laws<C: Classes>(bytes: &[u8])
    ensures classes { AreTokens C.class_of (tokens_by C.class_of) }
    ensures whole { concat (tokens_by C.class_of bytes.now) ≡ filter (λ b. not (is_blank (C.class_of b))) bytes.now }
    ensures none_empty { IsTrue (list_all (λ token. not (is_empty token)) (tokens_by C.class_of bytes.now)) }
{
    // only the contract names it
    let _bytes = bytes;
}
