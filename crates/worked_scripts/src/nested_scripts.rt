//! Nested inputs: what a script reads is what a script writes.

ghost use Rattle.std.specs.Prelude.{◌≡◌, ◌≤◌, ◌++◌, ℕ, ℤ, List, codes, length, sum, Vec, Ok, Err, [], None};
ghost use Rattle.cvl_base.specs.declared.fault.Fault.{Fault};
ghost use Rattle.cvl_base.specs.Limits.{most_elements};
ghost use Rattle.call_reader.specs.NestedTexts.{IsWithin32, nested_of};
ghost use Rattle.vector_handles.specs.declared.input.Input.TheVariants.{Bytes};
ghost use Rattle.worked_scripts.specs.NestedScripts.{made, read, shows_v, text_of_nest};

use call_reader::nested_laws::nest_reads_back;
use cvl_base::Memory;

/// A vector and a descriptor that two lines of a script made are written as their nest. If a nested input gives them, one line of
/// a script reads them, and writes the same; if it has a fault, the line has that fault.
pub fn written_and_read<A: Memory>()
    ensures made { (numbers : List ℤ) (lengths : List ℕ) → sum lengths ≡ length numbers → sum lengths ≤ most_elements →
        made A numbers lengths ≡ shows_v (text_of_nest numbers lengths) }
    ensures read { (bytes : Vec ℕ A) (numbers : List ℤ) (lengths : List ℕ) → sum lengths ≡ length numbers →
        nested_of bytes.items ≡ Ok (numbers, lengths) → read (Bytes bytes) ≡ shows_v (text_of_nest numbers lengths) }
    ensures refused { (bytes : Vec ℕ A) (f : Fault) → nested_of bytes.items ≡ Err f → read (Bytes bytes) ≡ ([], Some (1, f)) }
{}

/// What stands after ` =` in the line of a vector that one script wrote beside its descriptor, with the line feed, is a nested
/// input of which another script writes the same.
pub fn written_is_read_again<A: Memory>()
    ensures { (bytes : Vec ℕ A) (numbers : List ℤ) (lengths : List ℕ) → IsWithin32 numbers → sum lengths ≡ length numbers →
        length numbers ≤ most_elements → length lengths ≤ most_elements →
        made A numbers lengths ≡ (codes "v =" ++ bytes.items, None) → read (Bytes bytes) ≡ made A numbers lengths }
{
    nest_reads_back();
}
