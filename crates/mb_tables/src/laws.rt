ghost use Rattle.mb_tables.specs.TableLaws.{CountsFollowEffect, CountsFollowReplay, DamageOfCounts, LoggedTablesMove, StampRisesByOne};

/// The counts of open files follow the reference model's operations, when they are logged and when they are done again.
pub fn counts_follow_operations()
    ensures effect { CountsFollowEffect }
    ensures replay { CountsFollowReplay }
{}

/// What another call could see of the tables does not change without their stamp, which rises by one at most.
pub fn tables_move()
    ensures moves { LoggedTablesMove }
    ensures once { StampRisesByOne }
{}

/// A fault does to the counts of open files what it does to counts alone, whatever the current pages are.
pub fn damage_of_counts()
    ensures { DamageOfCounts }
{}
