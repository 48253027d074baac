//! Laws of histories, for the crates above.
ghost use Rattle.turn_lock.specs.History.{BeginningsChain, BeginningsNest, FullBeginningIsWhole};
ghost use Rattle.turn_lock.specs.History.{OwnEntriesBegin, OthersAddNoOwn, GoingOnChains};

use crate::story::Story;

/// What is true of every history and every beginning of it.
pub fn histories<T: Story>()
    ensures chain { BeginningsChain T.Entry }
    ensures nest { BeginningsNest T.Entry }
    ensures whole { FullBeginningIsWhole T.Entry }
    ensures own_begins { OwnEntriesBegin T.caller }
    ensures others { OthersAddNoOwn T.caller }
    ensures goes_on { GoingOnChains T.caller }
{}
