// All standings, by a worklist over the table of labels. A standing is the set of the labels that would complete a breach;
// its record has a bit for each label number, in eight words of 64 bits.
ghost use Rattle.std.specs.Prelude.{◌≡◌, ℕ, ◌+◌, ◌*◌, ◌<◌, ◌≤◌, Bool, [], ◌∷◌, length, MatchOption, slice_index};
ghost use Rattle.logic.specs.Masks.{mask};
ghost use Rattle.logic.specs.Formula.{on};
ghost use Rattle.charting.specs.Sets.{bit_of, bits, Flags, Packs, upto};
ghost use Rattle.charting.specs.Worklists.{Rooms};
ghost use Rattle.charting.specs.Walks.{Closed, Turned, Reached, at_end, Charted, Overfull};
ghost use Rattle.logic.proofs.Tables.{letters_append};
ghost use Rattle.charting.proofs.SetSteps.{words_packs};

use crate::worklist::{Automaton, all_states};

// Whether label i is in a standing.
pub(crate) fn has_label(standing: &[u64; 8], i: usize) -> bool
    requires { i < 512 }
    ensures { result ≡ bit_of standing.now i }
{
    (standing[i / 64] >> (i % 64)) % 2 == 1
}

// Which labels are in a standing: a flag for each number.
fn flags_of(standing: &[u64; 8]) -> [bool; 512]
    ensures { Flags (bit_of standing.now) 512 result }
{
    let mut flags = [false; 512];
    for i in 0..512 {
        flags[i] = has_label(standing, i);
    }
    flags
}

// Word w of the set of the numbers below `count` that pass a test.
fn pack_word<F: Fn(usize) -> bool>(count: usize, test: &F, w: usize) -> u64
    requires callable { (i : ℕ) → i < count → F.pre test.now i }
    requires word { w < 8 }
    ensures { (p : ℕ → Bool) → ((i : ℕ) (r : Bool) → i < count → F.post test.now i r → r ≡ p i) → result ≡ mask (bits (upto count p) (w * 64) 64) }
{
    let mut word = 0u64;
    let end = count.saturating_sub(w * 64).min(64);
    for b in (0..end).rev() {
        word = word * 2 + test(w * 64 + b) as u64;
    }
    word
}

// The set of the numbers below `count` that pass a test.
fn pack<F: Fn(usize) -> bool>(count: usize, test: &F) -> [u64; 8]
    requires { (i : ℕ) → i < count → F.pre test.now i }
    ensures { (p : ℕ → Bool) → ((i : ℕ) (r : Bool) → i < count → F.post test.now i r → r ≡ p i) → Packs (upto count p) result }
{
    let mut words = [0u64; 8];
    for (w, word) in words.iter_mut().enumerate() {
        *word = pack_word(count, test, w);
    }
    words
}

// The first standing: the labels that have bit `place`.
pub(crate) fn first_standing(labels: &[u32], place: usize) -> [u64; 8]
    requires few { length labels.now ≤ 512 }
    requires place { place < 32 }
    ensures { Packs (upto (length labels.now) (λ i. on place (slice_index labels.now i))) result }
{
    pack(labels.len(), &|i| (labels[i] >> place) % 2 == 1)
}

// Writes the column of a letter: what the table says of it for each label, one behind another.
fn turn_letter(table: &[u16], count: usize, letter: usize, columns: &mut [u16])
    requires rows { count * 256 ≤ length table.now }
    requires few { count ≤ 512 }
    requires letter { letter < 256 }
    requires room { 131072 ≤ length columns.old }
    ensures column { (i : ℕ) → i < count → slice_index columns.new (letter * 512 + i) ≡ slice_index table.now (i * 256 + letter) }
    ensures rest { (k : ℕ) → k < letter * 512 → slice_index columns.new k ≡ slice_index columns.old k }
    ensures len { length columns.new ≡ length columns.old }
{
    for i in 0..count {
        columns[letter * 512 + i] = table[i * 256 + letter];
    }
}

// Turns rows by labels into columns by letters, so that what is read together stands together.
fn turn(table: &[u16], count: usize, columns: &mut [u16])
    requires rows { count * 256 ≤ length table.now }
    requires few { count ≤ 512 }
    requires room { 131072 ≤ length columns.old }
    ensures turned { Turned table.now count columns.new }
    ensures len { length columns.new ≡ length columns.old }
{
    for letter in 0..256 {
        turn_letter(table, count, letter, columns);
    }
}

// The standings by a table of labels, with letters put after their words.
// Kept: only the columns are read; the table itself is what the words and the claims go by.
#[derive(Drop)]
struct Standings<'a> {
    table: &'a [u16],
    columns: &'a [u16],
    count: usize,
    first: [u64; 8],
    ghost room: { 131072 ≤ length columns.now },
    ghost turned: { Turned table.now count columns.now },
    ghost closed: { Closed table.now count },
    ghost start: { Reached table.now count first [] first },
}

impl<'a> Automaton for Standings<'a> {
    type State = [u64; 8];

    type Ahead = [bool; 512];

    ghost leads = { λ s u r. Reached s.table.now s.count s.first u r };

    ghost ahead_of = { λ s r flags. Flags (bit_of r) 512 flags };

    ghost longer = { at_end };

    fn first(&self) -> [u64; 8] {
        self.first
    }

    fn ahead(&self, from: &[u64; 8]) -> [bool; 512] {
        flags_of(from)
    }

    fn after(&self, ahead: &[bool; 512], letter: u8) -> [u64; 8] {
        pack(
            self.count,
            &|i| ahead[self.columns[letter as usize * 512 + i] as usize],
        )
    }

    ghost same = { λ s u x y same p. words_packs _ x y same p };

    ghost lettered = { λ s u small l. letters_append u (s ∷ []) l (small, tt) };
}

// The standings after all words, and the next numbers; none where there are more standings than places.
pub(crate) fn all_standings(
    area: &mut [[u64; 8]],
    next: &mut [u16],
    table: &[u16],
    columns: &mut [u16],
    count: usize,
    first: &[u64; 8],
) -> Option<usize>
    requires closed { Closed table.now count }
    requires room { 131072 ≤ length columns.old }
    requires rooms { Rooms area.old next.old }
    requires start { Reached table.now count first.now [] first.now }
    ensures charted { MatchOption result (Overfull table.now count first.now (length area.old)) (λ n. Charted table.now count first.now area.new n next.new) }
{
    turn(table, count, columns);
    let standings = Standings {
        table,
        columns,
        count,
        first: *first,
    };
    all_states(&standings, area, next)
}
