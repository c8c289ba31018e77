//! The laws of holes. Each function does nothing: its contract is the law.
ghost use Rattle.w16_holes.specs.Law.{BytesLaw, TakenLaw, JoinedLaw};
ghost use Rattle.std.specs.Prelude.{◌≡◌};
ghost use Rattle.w16_holes.specs.declared.holes.TheConstants.{LAST_END};

/// The last end that a range may get is this number. Definitions and code share the constant, so only this law would
/// see a wrong one.
pub fn figure_of_the_last_end()
    ensures { LAST_END ≡ 65536 }
{}

/// The free bytes alone tell the list of holes.
pub fn holes_are_their_bytes()
    ensures { BytesLaw }
{}

/// A part taken leaves just the other free bytes free.
pub fn taken_is_the_rest()
    ensures { TakenLaw }
{}

/// A part put makes just its bytes free, beside those that are.
pub fn joined_is_both()
    ensures { JoinedLaw }
{}
