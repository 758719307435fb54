// What is known of jobs by what they are made of.
ghost use Rattle.block_recording.specs.Promised.{BlockJobsAreReady};

/// Where encoders may end with just what a scene's blocks give, the job of an encoder that just began, with its block of the frame
/// and the names as they stand after the frame's `before` lines, can be made.
pub fn block_jobs_are_ready()
    ensures { BlockJobsAreReady }
{}
