/// What may be read of a directory. Names may have any length; the directory tells whether it allows
/// them.
#[derive(Clone, Copy, Debug)]
pub enum Query<'a> {
    /// The promise that waits for a name.
    Promise { name: &'a [u8] },
    /// What the page of an epoch has at a name. Epoch 0 asks for the latest.
    Lookup { name: &'a [u8], epoch: u64 },
    /// The first `count` roots of at least this epoch.
    History { from: u64, count: u16 },
    /// The latest root.
    Head,
}
