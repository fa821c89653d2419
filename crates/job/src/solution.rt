// What `solve` answers, and what `look` does.
use machines::placement::Placement;

/// The places to fence, and how many they are.
#[derive(Clone, Copy)]
pub struct Solution {
    pub places: Placement,
    pub fences: u32,
}

/// The places that may not be fenced, and the placement that is kept, if one is.
#[derive(Clone, Copy, Default)]
pub struct View {
    pub barred: Placement,
    pub kept: Option<Solution>,
}
