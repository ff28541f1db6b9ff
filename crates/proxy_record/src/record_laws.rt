//! What a record says, whatever it was told.
ghost use Rattle.proxy_record.specs.RecordedTurns.{TurnsAreRecorded};
ghost use Rattle.proxy_record.specs.Records.{RecordIsScriptOfItsHappenings, RecordedScriptsFollowGrammar};

/// What was recorded is the spelling of the table and of what happened, each at its moment and whole, as a script has
/// them; and where its numbers have a spelling, it is a script of just these items.
pub fn a_record_is_a_script()
    ensures records { RecordIsScriptOfItsHappenings }
    ensures spelled { RecordedScriptsFollowGrammar }
{}

/// Where the calls of a turn are recorded, the record takes what the engine took in that turn, in that order and at its
/// moment.
pub fn what_a_turn_takes_is_recorded()
    ensures { TurnsAreRecorded }
{}
