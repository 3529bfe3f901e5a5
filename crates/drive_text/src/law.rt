//! Laws of lines.
ghost use Rattle.drive_text.specs.Laws.{FormsAreLines, FormsAreOuts, OneCause, SameOuts};

/// The lines that are read are just those that the causes spell: each cause has one line, which is read back as it, and
/// two causes with one line are equal.
pub fn causes_law()
    ensures lines { FormsAreLines }
    ensures one { OneCause }
{}

/// The lines that are read as outs are just those that outs spell: each out has one line, which is read back as it, and
/// two lists of outs with the same lines are equal.
pub fn outs_law()
    ensures lines { FormsAreOuts }
    ensures same { SameOuts }
{}
