// What a pass may conclude of marks.
ghost use Rattle.e3_wire.specs.Claims.{AreOthersMarks, ClaimPromises, ClaimedDraftsMayEnter, ClaimedEntriesMayEnter, ClaimedEntriesStay, ClaimsAreUsed, DriversMayPut, EntriesFollow, EntriesPromiseNothing, EntryUses, FreedLeaves, GrowthAddsUp, LeaveASite, NothingPromised, PlacesPromise, ScenarioStays, TakenIsDue};

/// Marks that were put while a pass rested belong to none of its owners. For a site of its own they are entries of other
/// sites, none of the driver's and no line, and they leave what is promised to it.
pub fn marks_of_others_leave_a_site()
    ensures others { AreOthersMarks }
    ensures site { LeaveASite }
{}

/// A pass that owns all may put any marks of owners.
pub fn drivers_may_put_marks()
    ensures { DriversMayPut }
{}

/// What more marks say: their entries follow those before, and the scenario stays. A claim adds to its owner's note what an
/// entry of the owner uses. Where nothing is promised, the history is full exactly where it has as many entries as it may
/// have. Growth adds up.
pub fn marks_add_up()
    ensures entries { EntriesFollow }
    ensures scenario { ScenarioStays }
    ensures claim { ClaimPromises }
    ensures entry { EntryUses }
    ensures none { NothingPromised }
    ensures growth { GrowthAddsUp }
{}

/// Promises of a place without room add to what is promised to their owner, and to what is used. What is freed leaves nothing
/// promised to the owner, and its places are used no more. Either changes nothing else.
pub fn places_are_noted()
    ensures promised { PlacesPromise }
    ensures freed { FreedLeaves }
{}

/// Where nothing is promised, neither a place nor room, nothing is behind an entry of the driver, or behind a claim and the
/// entry that it was made for, if that uses all of it.
pub fn claims_are_used()
    ensures driver { EntriesPromiseNothing }
    ensures site { ClaimsAreUsed }
{}

/// An entry of a site that is allowed may be entered once a place and room are claimed for it; if no recover step is on,
/// whatever others put meanwhile. Then what the site may take is due.
pub fn claimed_entries_may_enter()
    ensures alone { ClaimedEntriesMayEnter }
    ensures stay { ClaimedEntriesStay }
    ensures due { TakenIsDue }
{}

/// What a site may enter behind what its pass has seen, it may enter once a place and room are claimed for it, whatever
/// others put meanwhile. No recover step is on.
pub fn claimed_drafts_may_enter()
    ensures { ClaimedDraftsMayEnter }
{}
