//! Runs of a recipe's script.

ghost use Rattle.std.specs.Prelude.{◌≡◌, ◌≤◌, length, IfOk, IsTrue};
ghost use Rattle.cvl_base.specs.declared.value.Value.TheVariants as value;
ghost use Rattle.vector_handles.specs.Names.{value_at};
ghost use Rattle.cvl_base.specs.Gives.{Gives};
ghost use Rattle.cvl_base.specs.Limits.{most_script_bytes};
ghost use Rattle.cvl_base.specs.Words.{is_name};
ghost use Rattle.recipes.specs.Recipes.{HasBooleans, HasIntegers, names_bound};

use cvl_base::{Config, Memory, Name, NoResources, Refused, Value};
use script_runs::{OpenGate, Sink, SinkFault, Stop, run_lines};
use std::thread::Threads;
use vector_handles::{Input, Session};

/// The name with these bytes, which must be one.
pub(crate) fn name_of(bytes: &[u8]) -> Name
    requires { IsTrue (is_name bytes.now) }
    ensures { result ≡ bytes.now }
{
    match Name::new(bytes) {
        Some(name) => name,
        None => unreachable!(),
    }
}

/// A sink that takes all bytes, keeps none and never fails.
#[derive(Drop)]
struct NothingKept;

impl Sink for NothingKept {
    ghost use Rattle.std.specs.Prelude.{None};
    ghost use Rattle.script_runs.specs.Hosts.{sink_seen};

    ghost seen = { λ _. sink_seen None 0 };

    fn put(&mut self, bytes: &[u8]) -> Result<usize, SinkFault> {
        Ok(bytes.len())
    }
}

/// The session after all lines of a script over these inputs, starting with no names. The script's text is dropped.
pub(crate) fn run_script<R: Threads + Sync, A: Memory>(
    rt: &R,
    alloc: A,
    config: Config,
    script: &str,
    inputs: Vec<Input<A>, A>,
) -> Result<Session<A>, Refused>
    requires { length script.now ≤ most_script_bytes }
    ensures { Gives (λ session. session.names) result (names_bound script.now inputs.items) }
{
    let mut session = Session::new(alloc, config, inputs)?;
    let lines = script.as_bytes();
    match run_lines(rt, alloc, &mut session, lines, &mut NothingKept, &OpenGate) {
        Ok(()) => Ok(session),
        Err(Stop::Script { fault, .. }) => Err(Refused::Fault(fault)),
        Err(Stop::NoResources { .. }) => Err(Refused::NoResources),
        Err(Stop::WriteFailed { .. }) => unreachable!(),
    }
}

/// The vector of integers that is bound to a name, taken out of the session, which ends.
pub(crate) fn integers_at<A: Memory>(
    session: Session<A>,
    name: &[u8],
) -> Result<Vec<i32, A>, NoResources>
    requires name { IsTrue (is_name name.now) }
    requires integers { HasIntegers session.names name.now }
    ensures { IfOk result (λ xs. value_at session.names name.now ≡ Some (value.Integers xs.items)) }
{
    match session.into_value(&name_of(name))? {
        Some(Value::Integers(numbers)) => Ok(numbers.into_vec()),
        _ => unreachable!(),
    }
}

/// The vector of booleans that is bound to a name, taken out of the session, which ends.
pub(crate) fn booleans_at<A: Memory>(
    session: Session<A>,
    name: &[u8],
) -> Result<Vec<bool, A>, NoResources>
    requires name { IsTrue (is_name name.now) }
    requires booleans { HasBooleans session.names name.now }
    ensures { IfOk result (λ bs. value_at session.names name.now ≡ Some (value.Booleans bs.items)) }
{
    match session.into_value(&name_of(name))? {
        Some(Value::Booleans(flags)) => Ok(flags.into_vec()),
        _ => unreachable!(),
    }
}
