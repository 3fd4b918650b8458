//! What follows from what a layout handed out.
ghost use Rattle.data_layout.specs.Layouts.{HandsOutApart};

/// Whatever a layout has handed out, no two of it share a word, and each ends within its words.
/// Does nothing when it runs.
pub fn layouts_hand_out_apart()
    ensures { HandsOutApart }
{}
