// The words of the command line.
ghost use Rattle.std.specs.Prelude.{◌≡◌, map, string_bytes};
ghost use Rattle.capture_running.specs.Words.{mode_named, mode_of};

/// What the program does.
#[derive(Clone, Copy, Debug, PartialEq, Eq, Drop)]
pub enum Mode {
    /// Plays a scene and writes the capture of its pictures.
    Record,
    /// Writes the picture texts that a capture stands for.
    Show,
}

fn mode_named(word: &str) -> Option<Mode>
    ensures { result ≡ mode_named word.now }
{
    match word {
        "record" => Some(Mode::Record),
        "show" => Some(Mode::Show),
        _ => None,
    }
}

/// What the words ask for: one of the two, alone.
pub(crate) fn mode_of(words: &[String]) -> Option<Mode>
    ensures { result ≡ mode_of (map string_bytes words.now) }
{
    match words {
        [word] => mode_named(word.as_str()),
        _ => None,
    }
}
