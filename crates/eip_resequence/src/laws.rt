ghost use Rattle.std.specs.Prelude.{◌≡◌, List, ℕ, Some};
ghost use Rattle.eip_resequence.specs.Order.{Arrival, IsInOrder, goes_before, in_order};
ghost use Rattle.eip_resequence.specs.Packing.{pack_text};
ghost use Rattle.eip_resequence.specs.Unpacking.{unpacked};
ghost use Rattle.eip_resequence.specs.declared.packed.Packed.{Packed};

/// Packing loses nothing, and what is unpacked was packed. It does nothing.
pub fn packing_law()
    ensures again { (l : List Packed) → unpacked (pack_text l) ≡ Some l }
    ensures only { (t : List ℕ) (l : List Packed) → unpacked t ≡ Some l → t ≡ pack_text l }
{}

/// What placing each message in turn gives is in order, and nothing else is. It does nothing.
pub fn order_law()
    ensures ordered { (arrivals : List Arrival)
        → IsInOrder arrivals (in_order goes_before arrivals) }
    ensures only { (arrivals list : List Arrival)
        → IsInOrder arrivals list → list ≡ in_order goes_before arrivals }
{}
