//! A call with too many or too few arguments or names, in words.

ghost use Rattle.std.specs.Prelude.{◌≡◌, ◌++◌, OnOk};
ghost use Rattle.explained_calls.specs.LineFaults.{amounts_words, count_lines, counts_words};

use crate::call_words::{CallWords, Spelling};
use crate::said;
use crate::words::{Counted, Line, Number, Words};
use cvl_base::{Memory, NoResources, Op};

/// How many things are wanted, and how many the line has.
#[derive(Drop)]
struct Counts {
    verb: &'static [u8],
    wanted: usize,
    thing: &'static [u8],
    present: usize,
}

impl Words for Counts {
    ghost words = { λ counts. counts_words counts.verb.now counts.wanted counts.thing.now counts.present };

    fn put<A: Memory>(&self, text: &mut Vec<u8, A>) -> Result<(), NoResources> {
        let things = Counted(self.wanted, self.thing);
        said![
            self.verb,
            things,
            b", and the line has ",
            Number(self.present)
        ]
        .put(text)
    }
}

/// How many arguments or names a call wants, and how many the line has.
#[derive(Drop)]
struct Amounts {
    op: Op,
    names: usize,
    arguments: usize,
}

impl Words for Amounts {
    ghost words = { λ amounts. amounts_words amounts.op amounts.names amounts.arguments };

    fn put<A: Memory>(&self, text: &mut Vec<u8, A>) -> Result<(), NoResources> {
        if self.op.takes(self.arguments) {
            let names = Counts {
                verb: b" binds ",
                wanted: self.op.binds(),
                thing: b"name",
                present: self.names,
            };
            names.put(text)
        } else if self.op.is_write() {
            let takes = b" takes 1 or 2 names, and the line has ";
            said![takes, Number(self.arguments)].put(text)
        } else {
            let arguments = Counts {
                verb: b" takes ",
                wanted: self.op.operands().len(),
                thing: b"argument",
                present: self.arguments,
            };
            arguments.put(text)
        }
    }
}

/// Appends what a call takes and gives, and how many arguments or names it wants and the line has.
pub(crate) fn put_count_lines<A: Memory>(
    op: Op,
    names: usize,
    arguments: usize,
    text: &mut Vec<u8, A>,
) -> Result<(), NoResources>
    ensures { OnOk result (text.new.items ≡ text.old.items ++ count_lines op names arguments) }
{
    let amounts = Amounts {
        op,
        names,
        arguments,
    };
    Line(CallWords(op)).put(text)?;
    Line(said![Spelling(op), amounts]).put(text)
}
