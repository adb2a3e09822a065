ghost use Rattle.mb_gen.specs.Laws.{GeneratedAreFit};

/// A generated job keeps what a driver and a core ask of a job: its two callers have letters of their own, each of
/// its calls names one of them and is what is read of its text, the calls are few, the start, the threshold and the
/// limit are in their ranges, and it has as many rules as were asked for, each of which strikes once.
pub fn generated_are_fit()
    ensures { GeneratedAreFit }
{}
