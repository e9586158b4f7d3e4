//! Laws of segmented calls on vectors whose elements lie on ranks, cut anywhere and any number of times, each a function that
//! takes and gives nothing and whose contract is the law.

ghost use Rattle.std.specs.Prelude.{◌≡◌, List, [], length, map};
ghost use Rattle.std.specs.List.{AllPass};
ghost use Rattle.call_laws.specs.OverRanks.{elements_of, reduces_over_ranks, scans_over_ranks, together};
ghost use Rattle.cvl_base.specs.SegmentedCalls.{seg_reduce_of, seg_scan_of};

use cvl_base::monoid::Monoid;

/// Segmented scans and reduces over ranks, if no segment is open before the first of them. Each rank scans its part after what is
/// open at the end of the ranks before it, and reduces the segments that start in its part, the last one joined with what
/// continues it in later ranks: in order, these are the plain call's results on the whole vector.
pub fn segments_over_ranks<M: Monoid>()
    ensures scan { (parts : List (List M.Item × List (List M.Item))) → (together parts).0 ≡ [] →
        seg_scan_of M.join M.unit (elements_of parts) (map length (together parts).1)
        ≡ Ok (scans_over_ranks M.join M.unit M.unit parts) }
    ensures reduce { (parts : List (List M.Item × List (List M.Item))) → (together parts).0 ≡ [] →
        AllPass M.is_item (elements_of parts) →
        seg_reduce_of M.join M.unit (elements_of parts) (map length (together parts).1)
        ≡ Ok (reduces_over_ranks M.join M.unit parts) }
{}
