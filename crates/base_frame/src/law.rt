//! Laws of streams of frames.
ghost use Rattle.base_frame.specs.Worked.{Worked};
ghost use Rattle.base_frame.specs.Laws.{OneSplit, OneFault, FramesStay, FaultsStay, FramesAreGrammar, FaultsAreGrammar, ContentsFit, ReadsBack, AllReadBack};

/// A stream is frames and a rest in one way alone, and more bytes change neither a frame nor a fault. So what a
/// `FrameReader` answers depends on the bytes alone, however they were cut into pieces, and a fault is for good.
pub fn frames_law()
    ensures one { OneSplit }
    ensures frames { FramesStay }
    ensures faults { FaultsStay }
    ensures one_fault { OneFault }
{}

/// What the reader takes for a frame is a frame by the grammar of LSP 3.17, Base Protocol, with this content and these
/// bytes behind it, and every such frame is taken.
pub fn frame_law()
    ensures { FramesAreGrammar }
{}

/// What the reader takes for a fault is one by the grammar, at the least place and of that cause, and every such
/// fault is found.
pub fn fault_law()
    ensures { FaultsAreGrammar }
{}

/// A content is at most the limit, and what `frame` writes for contents of at most the limit, one behind the other, is
/// read back as these contents, whatever follows.
pub fn written_law()
    ensures fits { ContentsFit }
    ensures back { ReadsBack }
    ensures all { AllReadBack }
{}

/// Frames and faults worked out by the grammar.
pub fn worked_law()
    ensures { Worked }
{}
