//! Calls, as a line of a script asks for them.

ghost use Rattle.std.specs.Prelude.{◌≡◌};
ghost use Rattle.cvl_base.specs.ResultNames.{count_of_results};

use crate::name::Name;
use call_table::Op;
use std::alloc::Allocator;
use std::marker::Model;

/// An argument of a call.
#[derive(Clone, Copy, Debug)]
pub enum Arg {
    /// The value that is bound to a name.
    Name(Name),
    /// A number of the line.
    Integer(i32),
    /// `T` or `F`.
    Boolean(bool),
}

/// The arguments of a call. Their model is their list. They are made from a `Vec` and give it back without memory.
#[derive(Drop)]
#[derive_where(Debug; A)]
pub struct Args<A: Allocator> {
    items: Vec<Arg, A>,
}

impl<A: Allocator> Model for Args<A> {
    ghost use Rattle.std.specs.Prelude.{List};
    ghost use Rattle.cvl_base.specs.declared.call.Arg.{Arg};

    ghost Value = { List Arg };

    ghost view = { λ a. a.items.items };
}

impl<A: Allocator> Args<A> {
    /// The arguments in a `Vec`.
    pub fn from_vec(items: Vec<Arg, A>) -> Args<A>
        ensures { result ≡ items.items }
    {
        Args { items }
    }

    /// The arguments as a `Vec`.
    pub fn into_vec(self) -> Vec<Arg, A>
        ensures { result.items ≡ self }
    {
        self.items
    }

    /// The arguments, in the order of the line.
    pub fn as_slice(&self) -> &[Arg]
        ensures { result.now ≡ self.now }
    {
        self.items.as_slice()
    }
}

/// The names that a line binds.
#[derive(Clone, Copy, Debug)]
pub enum ResultNames {
    /// None, as in a line that writes.
    None,
    /// One, bound to the value of a call.
    One(Name),
    /// Two, bound to the two values of a call.
    Two(Name, Name),
}

impl ResultNames {
    /// How many names there are.
    pub fn count(&self) -> usize
        ensures { result ≡ count_of_results self.now }
    {
        match self {
            ResultNames::None => 0,
            ResultNames::One(_) => 1,
            ResultNames::Two(_, _) => 2,
        }
    }
}

/// What a line of a script asks for.
#[derive(Drop)]
#[derive_where(Debug; A)]
pub struct Call<A: Allocator> {
    /// The names that are bound; none for `write`.
    pub results: ResultNames,
    /// The call of the table, or `write`.
    pub op: Op,
    /// The arguments.
    pub args: Args<A>,
}
