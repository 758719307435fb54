// The words of the command line.
ghost use Rattle.std.specs.Prelude.{◌≡◌, map, string_bytes};
ghost use Rattle.shares_running.specs.Words.{job_named, job_of};

/// What the words ask for.
#[derive(Clone, Copy, Debug, PartialEq, Eq, Drop)]
pub enum Job {
    /// The views in which two encoders share a key.
    Views,
    /// These, each with the least pair of items that share one.
    Pairs,
    /// These without the harmless ones, of which no pixel cares.
    Harmless,
}

/// What a word asks for.
fn job_named(word: &str) -> Option<Job>
    ensures { result ≡ job_named word.now }
{
    match word {
        "pairs" => Some(Job::Pairs),
        "harmless" => Some(Job::Harmless),
        _ => None,
    }
}

/// What the words ask for: none for the views, or one word alone.
pub(crate) fn job_of(words: &[String]) -> Option<Job>
    ensures { result ≡ job_of (map string_bytes words.now) }
{
    match words {
        [] => Some(Job::Views),
        [word] => job_named(word.as_str()),
        _ => None,
    }
}
