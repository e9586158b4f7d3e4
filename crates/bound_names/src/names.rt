//! The bound names.

ghost use Rattle.std.specs.Prelude.{◌≡◌, true, Some, is_some, Err, IfErr, IfOk, IfSome, MatchResult, OnErr, OnOk, option_copied};
ghost use Rattle.std.specs.Map.{keys_of};
ghost use Rattle.bound_names.specs.Names.{added_by, bind, bind_again, bind_both, has_room, has_room_for_both, value_at};

use crate::bound::Bound;
use cvl_base::limits::MOST_NAMES;
use cvl_base::{Memory, Name, NoResources, Refused, Value};
use std::collections::BTreeMap;

/// What is bound to names, in the order of the names.
pub type Names<A> = BTreeMap<Name, Bound<A>, A>;

/// What is bound to a name.
pub fn bound_to<'a, A: Memory>(names: &'a Names<A>, name: &Name) -> Option<&'a Bound<A>>
    ensures { option_copied result ≡ value_at names.now.entries name.now }
{
    names.get(name)
}

/// The value that is bound to a name.
pub fn value_of<'a, A: Memory>(names: &'a Names<A>, name: &Name) -> Option<&'a Value<A>>
    ensures { option_copied result ≡ value_at names.now.entries name.now }
{
    match bound_to(names, name) {
        Some(bound) => Some(bound.value()),
        None => None,
    }
}

/// What is bound to a name, taken out of the names, which end.
pub fn take_out<A: Memory>(names: Names<A>, name: &Name) -> Option<Bound<A>>
    ensures { result ≡ value_at names.entries name.now }
{
    let mut names = names;
    names.remove(name)
}

/// Binds a name to the value that a call gave. If the call was refused, that is the answer, and no name is bound.
pub fn bind_answer<A: Memory>(
    names: &mut Names<A>,
    name: &Name,
    answer: Result<Bound<A>, Refused>,
) -> Result<(), Refused>
    ensures binds { MatchResult answer
        (λ bound. OnOk result (names.new.entries ≡ bind names.old.entries name.now bound))
        (λ refusal. result ≡ Err refusal) }
    ensures memory { IfOk answer (λ _. IfErr result (λ e. e ≡ Refused.NoResources)) }
    ensures refused { OnErr result (names.new.entries ≡ names.old.entries) }
{
    match answer {
        Ok(bound) => {
            put(names, name, bound)?;
            Ok(())
        }
        Err(refusal) => Err(refusal),
    }
}

/// Binds a name to a value, and returns what was bound to it. Only a new name may be refused; then the names are as before.
fn put<A: Memory>(
    names: &mut Names<A>,
    name: &Name,
    bound: Bound<A>,
) -> Result<Option<Bound<A>>, NoResources>
    ensures binds { OnOk result (names.new.entries ≡ bind names.old.entries name.now bound) }
    ensures is_bound { OnOk result (value_at names.new.entries name.now ≡ Some bound) }
    ensures before { IfOk result (λ before. before ≡ value_at names.old.entries name.now) }
    ensures names_stay { IfOk result (λ before. IfSome before (λ _. keys_of names.new.entries ≡ keys_of names.old.entries)) }
    ensures refused { OnErr result (names.new.entries ≡ names.old.entries) }
{
    Ok(names.insert(*name, bound)?)
}

/// Binds a bound name to what it had before, or removes it if it had nothing. It takes no memory.
fn take_back<A: Memory>(names: &mut Names<A>, name: &Name, before: Option<Bound<A>>)
    requires is_bound { is_some (value_at names.old.entries name.now) ≡ true }
    ensures { names.new.entries ≡ bind_again names.old.entries name.now before }
{
    match before {
        Some(bound) => {
            names.insert(*name, bound).ok();
        }
        None => {
            names.remove(name);
        }
    }
}

/// Binds two names to the two values that a call gave, both or neither. If the call was refused, that is the answer, and no name
/// is bound.
#[tactic(auto, using(crate::proofs::TakenBack::taken_back))]
pub fn bind_answers<A: Memory>(
    names: &mut Names<A>,
    first: &Name,
    second: &Name,
    answer: Result<(Bound<A>, Bound<A>), Refused>,
) -> Result<(), Refused>
    ensures binds { MatchResult answer
        (λ both. OnOk result (names.new.entries ≡ bind_both names.old.entries first.now second.now both))
        (λ refusal. result ≡ Err refusal) }
    ensures memory { IfOk answer (λ _. IfErr result (λ e. e ≡ Refused.NoResources)) }
    ensures refused { OnErr result (names.new.entries ≡ names.old.entries) }
{
    let both = answer?;
    let before = put(names, first, both.0)?;
    match put(names, second, both.1) {
        Ok(_) => Ok(()),
        Err(_) => {
            take_back(names, first, before);
            Err(Refused::NoResources)
        }
    }
}

/// Whether a name is bound or fewer than 4,096 names are.
pub fn is_room<A: Memory>(names: &Names<A>, name: &Name) -> bool
    ensures { result ≡ has_room names.now.entries name.now }
{
    names.contains_key(name) || names.len() < MOST_NAMES
}

/// Whether the bound names and those of two names that are new are together at most 4,096.
pub fn is_room_for_both<A: Memory>(names: &Names<A>, first: &Name, second: &Name) -> bool
    ensures { result ≡ has_room_for_both names.now.entries first.now second.now }
{
    names.len() + added_by(names, first) + added_by(names, second) <= MOST_NAMES
}

/// How many names a name adds to the bound ones: one if it is new.
fn added_by<A: Memory>(names: &Names<A>, name: &Name) -> usize
    ensures { result ≡ added_by names.now.entries name.now }
{
    if names.contains_key(name) { 0 } else { 1 }
}
