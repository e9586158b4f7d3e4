//! The nearest of some known words.

ghost use Rattle.std.specs.Prelude.{◌≡◌, map, option_map, IfOk};
ghost use Rattle.explained_calls.specs.Nearest.{distance, if_near, near, nearest};

use cvl_base::{Memory, NoResources};
use strsim::generic_levenshtein;

/// How many bytes to insert, delete or change.
fn distance<A: Memory>(alloc: A, word: &[u8], known: &[u8]) -> Result<usize, NoResources>
    ensures { IfOk result (λ apart. apart ≡ distance word.now known.now) }
{
    Ok(generic_levenshtein(alloc, word, known)?)
}

/// The known word nearest to a word, by Levenshtein's distance in bytes: the first if several are, and none if no word is known.
pub fn nearest<'k, A: Memory>(
    alloc: A,
    word: &[u8],
    known: &[&'k [u8]],
) -> Result<Option<&'k [u8]>, NoResources>
    ensures { IfOk result (λ best. option_map (λ name. name.now) best
        ≡ nearest word.now (map (λ name. name.now) known.now)) }
{
    let Some((first, others)) = known.split_first() else {
        return Ok(None);
    };
    let mut best = *first;
    let mut least = distance(alloc, word, best)?;
    for name in others {
        let apart = distance(alloc, word, name)?;
        if apart < least {
            best = *name;
            least = apart;
        }
    }
    Ok(Some(best))
}

/// How many bytes may set a word apart from the one that is proposed for it.
const MOST_APART: usize = 2;

/// A known word, if it is near.
fn if_near<'k, A: Memory>(
    alloc: A,
    word: &[u8],
    known: &'k [u8],
) -> Result<Option<&'k [u8]>, NoResources>
    ensures { IfOk result (λ best. option_map (λ name. name.now) best ≡ if_near word.now known.now) }
{
    if distance(alloc, word, known)? <= MOST_APART {
        Ok(Some(known))
    } else {
        Ok(None)
    }
}

/// The nearest known word, as `nearest` finds it, if at most two bytes set it apart.
pub fn near<'k, A: Memory>(
    alloc: A,
    word: &[u8],
    known: &[&'k [u8]],
) -> Result<Option<&'k [u8]>, NoResources>
    ensures { IfOk result (λ best. option_map (λ name. name.now) best
        ≡ near word.now (map (λ name. name.now) known.now)) }
{
    match nearest(alloc, word, known)? {
        None => Ok(None),
        Some(name) => if_near(alloc, word, name),
    }
}
