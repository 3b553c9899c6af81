// Where the statements lead that do not lead to the next one.

/// The node behind the loop, the node at which a turn of it ends, and the exit of the instance; and the scalars of the
/// blocks that are left on the way, the inner ones first: those inside the loop, and the others.
#[derive(Clone, Copy)]
pub struct Around<'a> {
    pub stop: u32,
    pub again: u32,
    pub exit: u32,
    pub near: &'a [u32],
    pub far: &'a [u32],
}
