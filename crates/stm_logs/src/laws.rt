//! Laws of the definitions, each the contract of a function.
ghost use Rattle.stm_logs.specs.Statements.{FilterHas, SharedMeet};

/// The filter of a list of addresses has each of them.
pub fn filters_have_their_addresses()
    ensures { FilterHas }
{}

/// The filters of two lists that share an address meet.
pub fn shared_addresses_meet()
    ensures { SharedMeet }
{}
