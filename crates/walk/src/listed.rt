// One entry of a walk, with the number of its draw or layer.
#[derive(Clone, Copy, Debug, PartialEq, Eq)]
pub enum Listed {
    Draw(u32),
    Enter(u32),
    Leave(u32),
    // A filter layer that lies on the surface; its contents are not listed.
    Filter(u32),
}
