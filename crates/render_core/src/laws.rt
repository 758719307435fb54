// Laws of rendered frames.
ghost use Rattle.render_core.specs.Ended.{EndedLaw, KeptLaw, TextsLaw};
ghost use Rattle.render_core.specs.Laws.{ShownLaw};

/// Where frames were rendered one after another and all were shown, the stores are those after these frames by index, and the sink holds
/// the texts of their pictures more, in order.
pub fn shown_law()
    ensures { ShownLaw }
{}

/// What frames that were rendered one after another leave, by the outcome of the first that was not shown: where all were shown, the stores
/// after them, and the texts of their pictures held and counted more; after a fault of the sink a front of these texts, and its faults rose;
/// for want of memory the whole texts of the first ones, and not of all.
pub fn ended_law()
    ensures { EndedLaw }
{}

/// However frames that were rendered one after another ended, the sink counted no fewer faults, and is sure of just what it was.
pub fn kept_law()
    ensures { KeptLaw }
{}

/// What the sink has of frames of which it is only known that they were rendered one after another, as of those of a link that renders in
/// place: all texts, held and counted, a front of them, or the whole texts of the first ones, as `ended_law` has it.
pub fn texts_law()
    ensures { TextsLaw }
{}
