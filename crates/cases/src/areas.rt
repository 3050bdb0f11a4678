// The three areas of a chart, as large as a chart can use.
use charts::chart::Chart;

// Kept: `trials` has one too, of any size; a library for the two would hold nothing else.
#[derive(Drop)]
pub(crate) struct Areas {
    labels: [u32; 512],
    standings: [[u64; 8]; 512],
    next: [u16; 131072],
}

impl Areas {
    pub(crate) fn new() -> Areas {
        Areas {
            labels: [0; 512],
            standings: [[0; 8]; 512],
            next: [0; 131072],
        }
    }

    // A blank chart over the areas.
    pub(crate) fn chart(&mut self) -> Chart<'_> {
        Chart::new(
            self.labels.as_mut_slice(),
            self.standings.as_mut_slice(),
            self.next.as_mut_slice(),
        )
    }
}
