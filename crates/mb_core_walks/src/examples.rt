//! The worked examples: a job, what it prints, and what the events of the core are answered. All are in list order, but for
//! those that have an order.

/// A walk that is known line by line.
#[derive(Clone, Copy, Drop)]
pub struct Example {
    pub job: &'static str,
    /// The printed history.
    pub lines: &'static str,
    /// The answers to the events, but for the end of the walk.
    pub events: &'static str,
    /// How many faults were recorded.
    pub faults: usize,
    /// How often the trace says that a copy was stale, that a call was unwound, and that an operation was done again.
    pub stale: usize,
    pub unwound: usize,
    pub replayed: usize,
}

/// Two callers make the same file at the same time: the second one's blocks are stale, and it finds the file.
pub const RACED_CREAT: Example = Example {
    job: "\
callers = ['a 0 0', 'b 0 0']
calls = ['a creat /f 644', 'b creat /f 644']
order = 'AB'
",
    lines: "\
1 a creat /f 644 = 3
2 b creat /f 644 = 3
3 a exit = 0
4 b exit = 0
",
    events: "\
a enter inside
b enter inside
a finish logged
a leave left
b finish stale 1
b finish logged
b leave left
a enter inside
a finish logged
a leave left
b enter inside
b finish logged
b leave left
",
    faults: 0,
    stale: 1,
    unwound: 0,
    replayed: 0,
};

/// Four times stale: the caller gets the right to commit alone, and the other one finds it taken.
pub const FLOOR_TAKEN: Example = Example {
    job: "\
callers = ['a 0 0', 'b 0 0']
calls = ['a creat /x 644', 'b creat /p 644', 'b creat /q 644', 'b creat /r 644', 'b creat /s 644', 'b creat /t 644']
order = 'A Bbba A Bbba A Bbba A Bbba A Bb'
",
    lines: "\
1 b creat /p 644 = 3
2 b creat /q 644 = 4
3 b creat /r 644 = 5
4 b creat /s 644 = 6
5 a creat /x 644 = 3
6 b creat /t 644 = 7
7 a exit = 0
8 b exit = 0
",
    events: "\
a enter inside
b enter inside
b finish logged
b leave left
a finish stale 1
b enter inside
b finish logged
b leave left
a finish stale 1
b enter inside
b finish logged
b leave left
a finish stale 1
b enter inside
b finish logged
b leave left
a finish stale 1
b enter inside
b finish busy
a holds the floor
a finish logged
a leave left
b finish stale 1
b finish logged
b leave left
a enter inside
a finish logged
a leave left
b enter inside
b finish logged
b leave left
",
    faults: 0,
    stale: 5,
    unwound: 0,
    replayed: 0,
};

/// A fault while two calls are inside: both are unwound, and go in again.
pub const TWO_CALLERS_WIPED: Example = Example {
    job: "\
callers = ['a 0 0', 'b 0 0']
calls = ['a creat /x 644', 'b creat /y 644']
faults = ['1 gather 0 1 wipe 7']
order = 'bbaa'
",
    lines: "\
1 a creat /x 644 = 3
2 b creat /y 644 = 3
3 a exit = 0
4 b exit = 0
",
    events: "\
b enter inside
a enter inside
a struck 1
a enter shut
a unwinds
a unwound
a unwinds
b unwound
a dropped
a remounted
a reopened
a resumed
a enter inside
a finish logged
a leave left
b gather skip
b enter inside
b finish logged
b leave left
a enter inside
a finish logged
a leave left
b enter inside
b finish logged
b leave left
",
    faults: 1,
    stale: 0,
    unwound: 2,
    replayed: 0,
};

/// A call that two faults of its own struck is answered so.
pub const STRUCK_TWICE: Example = Example {
    job: "\
calls = ['a creat /f 644', 'a text 3 hi', 'a text 3 yo', 'a open /f r', 'a read 4 9']
faults = ['2 gather 0 2 wipe 9']
",
    lines: "\
1 a creat /f 644 = 3
2 a text 3 hi = EIO restart 1 2
3 a text 3 yo = 2
4 a open /f r = 4
5 a read 4 9 = 2 796f
6 a exit = 0
",
    events: "\
a enter inside
a finish logged
a leave left
a enter inside
a struck 1
a enter shut
a unwinds
a unwound
a dropped
a remounted
a reopened
a replayed 1
a resumed
a enter inside
a struck 2
a enter shut
a unwinds
a unwound
a dropped
a remounted
a reopened
a replayed 1
a resumed
a enter done
a enter inside
a finish logged
a leave left
a enter inside
a finish logged
a leave left
a enter inside
a finish logged
a leave left
a enter inside
a finish logged
a leave left
",
    faults: 2,
    stale: 0,
    unwound: 2,
    replayed: 2,
};

/// A fault more than the volume survives.
pub const LIMIT_PASSED: Example = Example {
    job: "\
limit = 1
calls = ['a creat /f 644', 'a text 3 hi', 'a close 3', 'a open /f r', 'a stat /f']
faults = ['4 gather 0 1', '4 replay 1 1']
",
    lines: "\
1 a creat /f 644 = 3
2 a text 3 hi = 2
3 a close 3 = 0
4 a open /f r = FAILED 2
5 a stat /f = FAILED 2
6 a exit = FAILED 2
",
    events: "\
a enter inside
a finish logged
a leave left
a enter inside
a finish logged
a leave left
a enter inside
a finish logged
a leave left
a enter inside
a struck 1
a enter shut
a unwinds
a unwound
a dropped
a remounted
a reopened
a replayed 1
a failed 2
a enter done
a enter done
a enter done
",
    faults: 2,
    stale: 0,
    unwound: 1,
    replayed: 1,
};

/// The recovery folds the log: a mode that was set twice is set once, and writes that meet are one. What is done again is a
/// Create, a SetMode and two Puts.
pub const FOLDED_RUN: Example = Example {
    job: "\
threshold = 4096
calls = ['a creat /f 644', 'a chmod /f 600', 'a chmod /f 640', 'a text 3 ab', 'a text 3 cd', 'a lseek 3 0 0',
    'a text 3 e', 'a stat /f']
faults = ['8 enter 0 1 wipe 4']
",
    lines: "\
1 a creat /f 644 = 3
2 a chmod /f 600 = 0
3 a chmod /f 640 = 0
4 a text 3 ab = 2
5 a text 3 cd = 2
6 a lseek 3 0 0 = 0
7 a text 3 e = 1
8 a stat /f = ino 3 mode 100640 nlink 1 uid 0 gid 0 size 4 atime 1 mtime 7 ctime 7
9 a exit = 0
",
    events: "\
a enter inside
a finish logged
a leave left
a enter inside
a finish logged
a leave left
a enter inside
a finish logged
a leave left
a enter inside
a finish logged
a leave left
a enter inside
a finish logged
a leave left
a enter inside
a finish logged
a leave left
a enter inside
a finish logged
a leave left
a enter inside
a struck 1
a enter shut
a unwinds
a unwound
a dropped
a remounted
a reopened
a replayed 1
a replayed 2
a replayed 3
a replayed 4
a resumed
a enter inside
a finish logged
a leave left
a enter inside
a finish logged
a leave left
",
    faults: 1,
    stale: 0,
    unwound: 1,
    replayed: 4,
};

/// A fault of the disk in a recovery ends the call that runs the step.
pub const FAILING_REMOUNT: Example = Example {
    job: "\
calls = ['a stat /', 'a stat /']
faults = ['1 enter 0 1']
",
    lines: "\
1 a stat / = EIO device
2 a stat / = ino 2 mode 040777 nlink 2 uid 0 gid 0 size 32 atime 0 mtime 0 ctime 0
3 a exit = 0
",
    events: "\
a enter inside
a struck 1
a enter shut
a unwinds
a unwound
a dropped
a step device
a enter shut
a remounted
a reopened
a resumed
a enter inside
a finish logged
a leave left
a enter inside
a finish logged
a leave left
",
    faults: 1,
    stale: 0,
    unwound: 1,
    replayed: 0,
};

/// The other caller's call ends the recovery.
pub const RESUMED_BY_OTHER: Example = Example {
    job: "\
callers = ['a 0 0', 'b 0 0']
calls = ['a stat /', 'b stat /']
faults = ['1 enter 0 1']
",
    lines: "\
1 a stat / = EIO device
2 b stat / = ino 2 mode 040777 nlink 2 uid 0 gid 0 size 32 atime 0 mtime 0 ctime 0
3 a exit = 0
4 b exit = 0
",
    events: "\
a enter inside
a struck 1
a enter shut
a unwinds
a unwound
a dropped
a step device
b enter shut
b remounted
b reopened
b resumed
b enter inside
b finish logged
b leave left
a enter inside
a finish logged
a leave left
b enter inside
b finish logged
b leave left
",
    faults: 1,
    stale: 0,
    unwound: 1,
    replayed: 0,
};
