//! Worked procedures: what each comes to on one copy is exactly this.

ghost use Rattle.std.specs.Prelude.{◌≡◌, [], ◌∷◌, codes, Some, None};
ghost use Rattle.vp_model.specs.Types.op;
ghost use Rattle.vp_proc.specs.declared.ended.End.TheVariants as ends;
ghost use Rattle.vp_proc.specs.Scripts.{eval, number_in, greatest};
ghost use Rattle.vp_proc.specs.Worked.{one, comes_out, counter, floor, nested, below};

/// A counter: what it read and wrote, and the sum as its result. Of a content that is no number, or none, nothing is written.
pub fn counts()
    ensures counted { eval counter (one (Some (codes "10"))) ≡ comes_out (op.Read 0 (Some (codes "10")) ∷ op.Write 0 (Some (codes "11")) ∷ []) (Some (codes "11")) (ends.Done 11) }
    ensures word { eval counter (one (Some (codes "ten"))) ≡ comes_out (op.Read 0 (Some (codes "ten")) ∷ []) (Some (codes "ten")) (ends.NotNumber 4) }
    ensures absent { eval counter (one None) ≡ comes_out (op.Read 0 None ∷ []) None (ends.NotNumber 4) }
    ensures last { eval counter (one (Some (codes "18446744073709551615"))) ≡
        comes_out (op.Read 0 (Some (codes "18446744073709551615")) ∷ []) (Some (codes "18446744073709551615")) (ends.Overflow 5) }
{}

/// Which contents are numbers.
pub fn contents_are_numbers()
    ensures none { number_in (Some (codes "0")) ≡ Some 0 }
    ensures zeros { number_in (Some (codes "007")) ≡ None }
    ensures most { number_in (Some (codes "18446744073709551615")) ≡ Some greatest }
    ensures more { number_in (Some (codes "18446744073709551616")) ≡ None }
    ensures signed { number_in (Some (codes "-1")) ≡ None }
{}

/// An `if` is done or passed over, with what is nested in it, to its own `else` or `end`.
pub fn branches_are_taken()
    ensures passed { eval floor (one (Some (codes "20"))) ≡ comes_out (op.Read 0 (Some (codes "20")) ∷ []) (Some (codes "20")) (ends.Done 20) }
    ensures done { eval floor (one (Some (codes "19"))) ≡ comes_out (op.Read 0 (Some (codes "19")) ∷ []) (Some (codes "19")) (ends.Failed 7) }
    ensures first { eval nested (one (Some (codes "10"))) ≡ comes_out (op.Read 0 (Some (codes "10")) ∷ []) (Some (codes "10")) (ends.Done 5) }
    ensures second { eval nested (one (Some (codes "11"))) ≡ comes_out (op.Read 0 (Some (codes "11")) ∷ []) (Some (codes "11")) (ends.Done 6) }
{}

/// Below 0 there is no number.
pub fn differences_end_at_zero()
    ensures { eval below (one None) ≡ comes_out [] None (ends.Overflow 4) }
{}
