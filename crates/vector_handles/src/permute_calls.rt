//! The value of a permute, of whole vectors or of each segment.

ghost use Rattle.std.specs.Prelude.{◌≤◌, IfOk, length, vec_len};
ghost use Rattle.cvl_base.specs.declared.operation.Op.TheVariants as op;
ghost use Rattle.cvl_base.specs.Gives.{Gives};
ghost use Rattle.cvl_base.specs.Limits.{most_elements};
ghost use Rattle.bound_names.specs.Operands.{AreTaken, held, held_at};
ghost use Rattle.vector_handles.specs.Answers.{IsTableValue};
ghost use Rattle.bound_names.specs.Arguments.{integers_in};
ghost use Rattle.vector_handles.specs.Families.{permuted};

use crate::answers::{Answer, bound_booleans, bound_integers};
use crate::asked::Asked;
use crew::Gate;
use cvl_base::{Cut, Element, Form, Memory, Refused};
use permutes::{back, default_into, select, simple};
use segmented_permutes::{seg_back, seg_default_into, seg_select, seg_simple};
use std::thread::Threads;

impl<R: Threads + Sync, A: Memory> Asked<'_, '_, R, A> {
    /// A permute of an integer or a boolean vector.
    pub(crate) fn permute<G: Gate>(
        &self,
        form: Form,
        cut: Cut,
        element: Element,
        gate: &G,
    ) -> Answer<A>
        requires kinds { AreTaken (op.Permute form cut element) self.now.operands }
        ensures { IsTableValue self.now.inputs.now (op.Permute form cut element) self.now.operands result }
    {
        let (source, defaults) = (self.operands.first, self.operands.third);
        match element {
            Element::Integer => {
                let (source, defaults) = (source.integers(), defaults.integers_if_any());
                bound_integers(self.permuted(form, cut, source, defaults, gate))
            }
            Element::Boolean => {
                let (source, defaults) = (source.booleans(), defaults.booleans_if_any());
                bound_booleans(self.permuted(form, cut, source, defaults, gate))
            }
        }
    }

    /// The elements of a source, permuted. The index, the flags and the descriptors are the operands at their places.
    fn permuted<T: Copy + Send + Sync, G: Gate>(
        &self,
        form: Form,
        cut: Cut,
        source: &[T],
        defaults: &[T],
        gate: &G,
    ) -> Result<Vec<T, A>, Refused>
        requires kinds { (element : Element) × AreTaken (op.Permute form cut element) self.now.operands }
        requires source { length source.now ≤ most_elements }
        requires defaults { length defaults.now ≤ most_elements }
        ensures values { Gives (λ v. v.items) result
            (permuted form cut source.now (integers_in (held self.now.operands.second)) defaults.now
            (held_at self.now.operands)) }
        ensures in_limit { IfOk result (λ v. vec_len v ≤ most_elements) }
    {
        let (rt, alloc, config, operands) = (self.rt, self.alloc, self.config, self.operands);
        let index = operands.second.integers_if_any();
        match cut {
            Cut::Flat => match form {
                Form::Simple => simple(rt, alloc, config, source, index, gate),
                Form::Back => back(rt, alloc, config, source, index, gate),
                Form::Select => {
                    let flags = operands.third.booleans();
                    select(rt, alloc, config, source, index, flags, gate)
                }
                Form::Default => { default_into(rt, alloc, config, source, index, defaults, gate) }
            },
            Cut::Segmented => match form {
                Form::Simple => {
                    let d = operands.third.descriptor();
                    seg_simple(rt, alloc, config, source, index, d, gate)
                }
                Form::Back => {
                    let source_d = operands.third.descriptor();
                    let index_d = operands.fourth.descriptor();
                    seg_back(rt, alloc, config, source, index, source_d, index_d, gate)
                }
                Form::Select => {
                    let flags = operands.third.booleans();
                    let d = operands.fourth.descriptor();
                    seg_select(rt, alloc, config, source, index, flags, d, gate)
                }
                Form::Default => {
                    let source_d = operands.fourth.descriptor();
                    let default_d = operands.fifth.descriptor();
                    seg_default_into(
                        rt, alloc, config, source, index, defaults, source_d, default_d, gate,
                    )
                }
            },
        }
    }
}
