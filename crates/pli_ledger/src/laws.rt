//! Laws of ledgers.
ghost use Rattle.pli_ledger.specs.laws.Laws.{AdditionsKeepFits, AfterFits, BuildsKeepFits, ChangesKeepFits};
ghost use Rattle.pli_ledger.specs.laws.Laws.{DeletionsKeepFits, NothingFits, WhatHoldsIsFresh};

use pli_members::{deletion_keeps_others, deletion_takes, edit_gives_next, edit_keeps_others};

/// Laws: what is kept fits the members, also after an edit of them, since an edit gives a version that was never given
/// before.
pub fn edits_keep_fits()
    ensures nothing { NothingFits }
    ensures additions { AdditionsKeepFits }
    ensures changes { ChangesKeepFits }
    ensures deletions { DeletionsKeepFits }
{
    edit_gives_next();
    edit_keeps_others();
    deletion_takes();
    deletion_keeps_others();
}

/// A law: an expansion that is kept, and whose trace the members answer as they did, is their expansion.
pub fn what_holds_is_fresh()
    ensures { WhatHoldsIsFresh }
{}

/// Laws: what a build leaves fits the members, and so does what one leaves that was refused.
pub fn builds_keep_fits()
    ensures builds { BuildsKeepFits }
    ensures after { AfterFits }
{}
