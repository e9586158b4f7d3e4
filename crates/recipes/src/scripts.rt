//! The texts of the recipes.

/// The product of a sparse matrix with a vector, bound to `y`.
///
/// Its inputs are the lengths of the rows, the column and the value of each entry, row after row, and the vector.
/// Source: Blelloch, Vector Models for Data-Parallel Computing, 1990.
pub const SPARSE_MATVEC: &str = "lens = input 1
cols = input 2
vals = input 3
x = input 4
d = mke_fov lens
g = bck_puz x cols
p = mul_wuz vals g
y = add_rez p d
write y
";

/// Whether an observer at place 0 sees each place, for 1 to 256 altitudes of 0 to 32767, bound to `v`; beyond, it may be wrong
/// without a fault.
///
/// Its input is the vector of altitudes. For places i from 1 on, `s` is the slope to place i as the floor of 65536 times the rise
/// divided by i: subtracting `c` makes the floor of the truncated quotient. Within the range these floors are ordered as the
/// fractions are, and nothing wraps. The example `terrain.cvl` takes any altitudes. Source: Blelloch, Vector Models for
/// Data-Parallel Computing, 1990.
pub const LINE_OF_SIGHT: &str = "a = input 1
n = len_luz a
a0 = ext_vuz a 0
b = dis_vuz a0 n
d = sub_wuz a b
i = ind_luz 0 1 n
one = dis_vuz 1 n
j = max_wuz i one
k = dis_vuz 65536 n
p = mul_wuz d k
q = div_wuz p j
r = mod_wuz p j
z = dis_vuz 0 n
neg = les_wuz r z
c = int_wub neg
s0 = sub_wuz q c
s = rep_vuz s0 0 -2147483648
m = max_suz s
v0 = grt_wuz s m
v = rep_vub v0 0 T
write v
";
