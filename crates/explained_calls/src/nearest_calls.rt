//! The call whose name is near to a word.

ghost use Rattle.std.specs.Prelude.{◌≡◌, option_map, IfOk};
ghost use Rattle.explained_calls.specs.Nearest.{call_names, near};

use crate::known_words::near;
use cvl_base::{Memory, NoResources};

/// The name of the call nearest to a word, if it is near. Names are compared class by class: first the elementwise calls, then
/// those on whole vectors, then those by segments, and then the others; of each, those on integers come first.
#[rattlefmt::skip]
#[tactic(auto, unfolding(call_table::specs::Operators::int_binaries, call_table::specs::Operators::int_monoids, call_table::specs::Operators::unaries, call_table::specs::Operators::comparisons, call_table::specs::Operators::bool_binaries, call_table::specs::Spellings::elements, call_table::specs::Spellings::forms))]
pub(crate) fn near_call<A: Memory>(
    alloc: A,
    word: &[u8],
) -> Result<Option<&'static [u8]>, NoResources>
    ensures { IfOk result (λ best. option_map (λ name. name.now) best ≡ near word.now call_names) }
{
    let names: [&'static [u8]; 116] = [
        b"add_wuz", b"mul_wuz", b"min_wuz", b"max_wuz", b"and_wuz", b"ior_wuz", b"xor_wuz",
        b"sub_wuz", b"div_wuz", b"mod_wuz", b"lsh_wuz", b"rsh_wuz", b"not_wuz", b"cpy_wuz",
        b"grt_wuz", b"les_wuz", b"geq_wuz", b"leq_wuz", b"eql_wuz", b"neq_wuz", b"sel_wuz", b"boo_wuz",
        b"and_wub", b"ior_wub", b"xor_wub", b"not_wub", b"cpy_wub", b"sel_wub", b"int_wub",
        b"add_suz", b"mul_suz", b"min_suz", b"max_suz", b"and_suz", b"ior_suz", b"xor_suz", b"tot_suz",
        b"add_ruz", b"mul_ruz", b"min_ruz", b"max_ruz", b"and_ruz", b"ior_ruz", b"xor_ruz", b"tot_ruz",
        b"smp_puz", b"bck_puz", b"sel_puz", b"def_puz", b"dis_vuz", b"ext_vuz", b"rep_vuz", b"pck_luz", b"ind_luz",
        b"and_sub", b"ior_sub", b"xor_sub", b"and_rub", b"ior_rub", b"xor_rub", b"smp_pub", b"bck_pub",
        b"sel_pub", b"def_pub", b"dis_vub", b"ext_vub", b"rep_vub", b"pck_lub", b"cnt_lub",
        b"add_sez", b"mul_sez", b"min_sez", b"max_sez", b"and_sez", b"ior_sez", b"xor_sez", b"tot_sez",
        b"add_rez", b"mul_rez", b"min_rez", b"max_rez", b"and_rez", b"ior_rez", b"xor_rez", b"tot_rez",
        b"smp_pez", b"bck_pez", b"sel_pez", b"def_pez", b"dis_vez", b"ext_vez", b"rep_vez", b"pck_lez", b"ind_lez",
        b"and_seb", b"ior_seb", b"xor_seb", b"and_reb", b"ior_reb", b"xor_reb", b"smp_peb", b"bck_peb",
        b"sel_peb", b"def_peb", b"dis_veb", b"ext_veb", b"rep_veb", b"pck_leb", b"cnt_leb",
        b"len_luz", b"len_lub", b"input", b"nested", b"pck_fov", b"mke_fov", b"len_fos",
    ];
    near(alloc, word, &names)
}
