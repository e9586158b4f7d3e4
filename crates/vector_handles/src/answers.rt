//! The value of a call, from the vector or the element that a kernel gave.

ghost use Rattle.std.specs.Prelude.{◌≤◌, IfOk, vec_len};
ghost use Rattle.cvl_base.specs.Gives.{Gives};
ghost use Rattle.cvl_base.specs.Limits.{most_elements};
ghost use Rattle.vector_handles.specs.Answers.{IsVectorOf};
ghost use Rattle.vector_handles.specs.ElementTypes.{boolean, integer};
ghost use Rattle.vector_handles.specs.Families.{single};

use bound_names::Bound;
use cvl_base::{Fault, Memory, Refused, Value};

/// What a call gives: a value to be bound, or the call's refusal.
pub(crate) type Answer<A> = Result<Bound<A>, Refused>;

/// The value with the integers that a kernel gave, at most 4,194,304, or the kernel's refusal.
pub(crate) fn bound_integers<A: Memory>(answer: Result<Vec<i32, A>, Refused>) -> Answer<A>
    requires { IfOk answer (λ v. vec_len v ≤ most_elements) }
    ensures { IsVectorOf integer (λ v. v.items) answer result }
{
    match answer {
        Ok(values) => Ok(Bound::from_integers(values)),
        Err(refusal) => Err(refusal),
    }
}

/// The value with the booleans that a kernel gave, at most 4,194,304, or the kernel's refusal.
pub(crate) fn bound_booleans<A: Memory>(answer: Result<Vec<bool, A>, Refused>) -> Answer<A>
    requires { IfOk answer (λ v. vec_len v ≤ most_elements) }
    ensures { IsVectorOf boolean (λ v. v.items) answer result }
{
    match answer {
        Ok(values) => Ok(Bound::from_booleans(values)),
        Err(refusal) => Err(refusal),
    }
}

/// The value with the one integer that a kernel gave, or the kernel's fault.
pub(crate) fn bound_integer<A: Memory>(answer: Result<i32, Fault>) -> Answer<A>
    ensures { Gives (λ v. v) result (single integer answer) }
{
    match answer {
        Ok(value) => Ok(Bound::of_value(Value::Integer(value))),
        Err(fault) => Err(Refused::Fault(fault)),
    }
}

/// The value with the one boolean that a kernel gave, or the kernel's fault.
pub(crate) fn bound_boolean<A: Memory>(answer: Result<bool, Fault>) -> Answer<A>
    ensures { Gives (λ v. v) result (single boolean answer) }
{
    match answer {
        Ok(value) => Ok(Bound::of_value(Value::Boolean(value))),
        Err(fault) => Err(Refused::Fault(fault)),
    }
}
