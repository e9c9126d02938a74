//! Laws of the slot: a function without parameters and without a body has the law as its contract.
ghost use Rattle.std.specs.Prelude.{◌≡◌};
ghost use Rattle.cy_slot.specs.Courses.{SlotForgets};
ghost use Rattle.cy_slot.specs.declared.slot.TheConstants.{GREATEST_TENANCY, STATE_BYTES};
ghost use Rattle.cy_slot.specs.Runs.{SlotServesItsTenants};

/// Over every list of calls, for whichever tenants they are meant, a step takes effect exactly between the `open` that
/// took effect for its tenant and the end of his request. `open` takes effect at most once for each tenant, behind the
/// `bind` that gave him his number; and this number is the first one, and one more for each release before.
pub fn slot_serves_its_tenants()
    ensures { SlotServesItsTenants }
{}

/// A slot that was used, for anything, and released answers each list of its next tenant's calls as a new one does, and
/// is then left as the new one is, but for the numbers of tenants.
pub fn slot_forgets()
    ensures { SlotForgets }
{}

/// What a component keeps for a request has 256 bytes, and the number of a tenant 64 bits, of which the greatest number
/// is given to nobody.
pub fn sizes_of_a_slot()
    ensures state { STATE_BYTES ≡ 256 }
    ensures tenants { GREATEST_TENANCY ≡ 18446744073709551615 }
{}
