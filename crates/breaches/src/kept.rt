// The pairs of walks that are kept, level by level: walks of one state, of two states, and so on.
ghost use Rattle.std.specs.Prelude.{◌≡◌, ◌+◌, ◌<◌, [], ◌∷◌, ◌++◌, length, take, drop, slice_index_or};
ghost use Rattle.pairs.specs.Stages.{no_pair, nothing_kept, Keeps, Rooted, depth_at, chain};
ghost use Rattle.breaches.specs.Counts.{tally_of};

use once::KeepOnce;
use pairs::level::LastStep;
use pairs::pair::Pair;

// Beside the pairs, the level that is being filled: its first entry, how many states its walks have, and whether a pair found no room.
#[derive(Drop)]
pub(crate) struct KeptPairs<'a> {
    pub(crate) list: KeepOnce<'a, Pair>,
    pub(crate) base: usize,
    pub(crate) depth: usize,
    // Kept: a fact beside the list and no failure, since the level goes on after it: a state behind an entry may still end a breach.
    pub(crate) full: bool,
}

impl<'a> KeptPairs<'a> {
    pub(crate) fn new(area: &'a mut [Pair]) -> KeptPairs<'a>
        ensures fresh { tally_of result ≡ nothing_kept }
        ensures area { result.list.area.now ≡ area.old }
        ensures lent { result.list.area.ghost_name ≡ area.entry.ghost_name }
    {
        KeptPairs {
            list: KeepOnce::new(area),
            base: 0,
            depth: 1,
            full: false,
        }
    }

    // Entry i.
    pub(crate) fn entry(&self, i: usize) -> Pair
        requires { i < self.now.list.len }
        ensures { result ≡ slice_index_or self.now.list.area.now i no_pair }
    {
        *self.list.get(i).unwrap()
    }

    // Keeps p, if it is new and there is room.
    pub(crate) fn keep(&mut self, p: Pair)
        ensures { Keeps self.old.list.area.now (tally_of self.old) p self.new.list.area.now (tally_of self.new) }
    {
        if self.list.add(p).is_none() {
            self.full = true;
        }
    }

    // Writes the walk of an entry and then one state behind it to the front of the walk area.
    pub(crate) fn show(&self, end: LastStep, walk: &mut [usize]) -> usize
        requires rooted { Rooted self.now.list.area.now (end.entry + 1) }
        requires below { end.entry < self.now.list.len }
        requires room { depth_at self.now.list.area.now end.entry < length walk.old }
        ensures states { result ≡ depth_at self.now.list.area.now end.entry + 1 }
        ensures written { take result walk.new ≡ chain self.now.list.area.now (depth_at self.now.list.area.now end.entry) end.entry ++ (end.state ∷ []) }
        ensures rest { drop result walk.new ≡ drop result walk.old }
    {
        let depth = self.entry(end.entry).depth;
        walk[depth] = end.state;
        let mut at = end.entry;
        // Kept: over `walk[..depth].iter_mut().rev()` the proof didn't close, since an invariant can't name what is written there.
        for place in (0..depth).rev() {
            let pair = self.entry(at);
            walk[place] = pair.state;
            at = pair.parent;
        }
        depth + 1
    }
}
