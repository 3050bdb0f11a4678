// A call as data: which object it is made on, and with what.

// What a machine stands on: a table by its number, a round of letters, or a machine of the caller's.
#[derive(Drop)]
pub enum Ground<M> {
    Table(usize),
    Round(Vec<u8>),
    Other(M),
}

// A machine: its ground, under stuck layers for these signals, from below up.
#[derive(Drop)]
pub struct Pile<M> {
    pub ground: Ground<M>,
    pub stuck: Vec<u8>,
}

// Sheets, tables and charts go by their numbers, from 0. A look for a breach says how many entries its
// pair area and its walk area have.
#[derive(Drop)]
pub enum Call<M> {
    Open {
        sheet: usize,
        names: Vec<u8>,
    },
    Enter {
        sheet: usize,
        rule: Vec<u8>,
    },
    Load {
        sheet: usize,
        table: usize,
        file: Vec<u8>,
    },
    Fill {
        chart: usize,
        sheet: usize,
        rule: usize,
    },
    Begin {
        chart: usize,
    },
    Scan {
        chart: usize,
        letter: u8,
    },
    Search {
        chart: usize,
        machine: Pile<M>,
        pairs: usize,
        walk: usize,
    },
}
