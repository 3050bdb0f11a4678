// Where a chart is, and what its watch can be told.

// A watch follows letters from standing to standing until they are a breach.
#[derive(Clone, Copy)]
pub enum State {
    // not filled
    Blank,
    // filled, without a watch
    Ready,
    // at the standing after the letters so far, which are no breach
    Watching { standing: u16 },
    // the letters became a breach
    Broken,
}

#[derive(Clone, Copy)]
pub(crate) enum Event {
    Begin,
    Scan { letter: u8 },
}
