//! Laws of heads: a function without parameters and without a body has the law as its contract.
ghost use Rattle.cy_respond.specs.Laws.{FieldsStandAlone, HeadsEndOnce, ReservedNamesAreKept};

/// No component can split a head: a field that is taken is one line, of the name that it was given.
pub fn fields_stand_alone()
    ensures { FieldsStandAlone }
{}

/// No component can split an answer: whatever fields were taken, the first empty line is the head's end.
#[tactic(auto, using(crate::proofs::HeadEnds::heads_end_once))]
pub fn heads_end_once()
    ensures { HeadsEndOnce }
{}

/// No component can say how its content is framed, or what becomes of the connection: no field that was taken has such a
/// name.
pub fn reserved_names_are_kept()
    ensures { ReservedNamesAreKept }
{}
