//! The law of the numbers that C is told. The function does nothing: its contract is the law.
ghost use Rattle.std.specs.Prelude.{◌≡◌};
ghost use Rattle.w16_c.specs.declared.status.TheConstants.{BAD_SIZE, DONE, END, EXISTS, FAULT_DAMAGED, FAULT_LIMIT, FAULT_NOT_PRESENT, FAULT_READ_ONLY, FAULT_ROOM, FAULT_SELECTOR, FAULT_STORE, NONE_MISSING, NO_MACHINE, NO_MEMORY};

/// Each status is the number that `include/w16.h` has for it. Definitions and code share the constants, so only this
/// law would see a wrong one.
pub fn numbers_of_statuses()
    ensures done { DONE ≡ 0 }
    ensures no_machine { NO_MACHINE ≡ 1 }
    ensures no_memory { NO_MEMORY ≡ 2 }
    ensures bad_size { BAD_SIZE ≡ 3 }
    ensures fault_selector { FAULT_SELECTOR ≡ 4 }
    ensures fault_read_only { FAULT_READ_ONLY ≡ 5 }
    ensures fault_not_present { FAULT_NOT_PRESENT ≡ 6 }
    ensures fault_limit { FAULT_LIMIT ≡ 7 }
    ensures end { END ≡ 8 }
    ensures fault_room { FAULT_ROOM ≡ 9 }
    ensures fault_store { FAULT_STORE ≡ 10 }
    ensures fault_damaged { FAULT_DAMAGED ≡ 11 }
    ensures exists { EXISTS ≡ 12 }
    ensures none_missing { NONE_MISSING ≡ 13 }
{}
