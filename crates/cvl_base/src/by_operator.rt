//! The table of the operators: the type that stands in generic code for each that a call names. Each macro calls a function for
//! the type of an operator; among the function's types `_` stands for that one. So an operator is matched once a call, outside
//! the loop over the elements.

/// A call by an operator on two integers: of the first function if it has a value on all pairs, else of the second.
#[macro_export]
macro_rules! by_int_binary {
    (
        $op:expr,
        $total:ident::<_ $(, $of:ty)*>($($arg:expr),*),
        $partial:ident::<_ $(, $of_partial:ty)*>($($arg_of_partial:expr),*)
    ) => {
        match $op {
            $crate::IntBinary::Monoid(monoid) => $crate::by_int_monoid!(monoid, $total::<_ $(, $of)*>($($arg),*)),
            $crate::IntBinary::Sub => $total::<$crate::integer::Sub $(, $of)*>($($arg),*),
            $crate::IntBinary::Div => $partial::<$crate::partials::Div $(, $of_partial)*>($($arg_of_partial),*),
            $crate::IntBinary::Mod => $partial::<$crate::partials::Mod $(, $of_partial)*>($($arg_of_partial),*),
            $crate::IntBinary::Lsh => $partial::<$crate::partials::Lsh $(, $of_partial)*>($($arg_of_partial),*),
            $crate::IntBinary::Rsh => $partial::<$crate::partials::Rsh $(, $of_partial)*>($($arg_of_partial),*),
        }
    };
}

/// A call by an associative operator on integers.
#[macro_export]
macro_rules! by_int_monoid {
    ($op:expr, $function:ident::<$($of:ident,)* _ $(, $more:ty)*>($($arg:expr),*)) => {
        match $op {
            $crate::IntMonoid::Add => $function::<$($of,)* $crate::monoids::Add $(, $more)*>($($arg),*),
            $crate::IntMonoid::Mul => $function::<$($of,)* $crate::monoids::Mul $(, $more)*>($($arg),*),
            $crate::IntMonoid::Min => $function::<$($of,)* $crate::monoids::Min $(, $more)*>($($arg),*),
            $crate::IntMonoid::Max => $function::<$($of,)* $crate::monoids::Max $(, $more)*>($($arg),*),
            $crate::IntMonoid::And => $function::<$($of,)* $crate::monoids::And $(, $more)*>($($arg),*),
            $crate::IntMonoid::Ior => $function::<$($of,)* $crate::monoids::Ior $(, $more)*>($($arg),*),
            $crate::IntMonoid::Xor => $function::<$($of,)* $crate::monoids::Xor $(, $more)*>($($arg),*),
        }
    };
}

/// A call by an operator on booleans.
#[macro_export]
macro_rules! by_bool_binary {
    ($op:expr, $function:ident::<$($of:ident,)* _ $(, $more:ty)*>($($arg:expr),*)) => {
        match $op {
            $crate::BoolBinary::And => $function::<$($of,)* $crate::monoids::BoolAnd $(, $more)*>($($arg),*),
            $crate::BoolBinary::Ior => $function::<$($of,)* $crate::monoids::BoolIor $(, $more)*>($($arg),*),
            $crate::BoolBinary::Xor => $function::<$($of,)* $crate::monoids::BoolXor $(, $more)*>($($arg),*),
        }
    };
}

/// A call by a comparison.
#[macro_export]
macro_rules! by_comparison {
    ($op:expr, $function:ident::<_ $(, $of:ty)*>($($arg:expr),*)) => {
        match $op {
            $crate::Comparison::Greater => $function::<$crate::comparisons::Greater $(, $of)*>($($arg),*),
            $crate::Comparison::Less => $function::<$crate::comparisons::Less $(, $of)*>($($arg),*),
            $crate::Comparison::AtLeast => $function::<$crate::comparisons::AtLeast $(, $of)*>($($arg),*),
            $crate::Comparison::AtMost => $function::<$crate::comparisons::AtMost $(, $of)*>($($arg),*),
            $crate::Comparison::Equal => $function::<$crate::comparisons::Equal $(, $of)*>($($arg),*),
            $crate::Comparison::Unequal => $function::<$crate::comparisons::Unequal $(, $of)*>($($arg),*),
        }
    };
}
