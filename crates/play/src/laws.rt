// The law of the statuses of `run`.
ghost use Rattle.play.specs.Complete.{IsComplete};

/// No-op; states that the request is done if neither source nor sink failed, words and text are valid, and memory
/// sufficed.
pub fn complete()
    ensures { IsComplete }
{}
