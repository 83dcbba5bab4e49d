ghost use Rattle.std.specs.Prelude.{◌≡◌, ℕ, ◌<◌, ◌≤◌, ◌&&◌, ◌||◌, ◌==◌, not, false, true};
ghost use Rattle.score.specs.NodeSet.{has};

/// A set of node numbers below 256: a bit for each, 64 to a word.
#[derive(Clone, Copy)]
pub struct NodeSet {
    pub(crate) words: [u64; 4],
}

impl NodeSet {
    /// The empty set.
    pub fn none() -> NodeSet
        ensures { (n : ℕ) → has result n ≡ false }
    {
        NodeSet { words: [0; 4] }
    }

    /// Adds a node.
    pub fn put(&mut self, node: u32)
        requires { node < 256 }
        ensures { (n : ℕ) → has self.new n ≡ (n == node || has self.old n) }
    {
        self.words[node as usize / 64] |= 1 << (node % 64);
    }

    /// Adds a node, if it is wanted.
    pub fn put_if(&mut self, node: u32, wanted: bool)
        requires { node < 256 }
        ensures { (n : ℕ) → has self.new n ≡ (wanted && n == node || has self.old n) }
    {
        if wanted {
            self.put(node);
        }
    }

    /// The nodes that pass, of so many. It asks for at most 256 nodes, and that each of them may be asked about.
    pub fn of<F: Fn(u32) -> bool>(nodes: u32, passes: F) -> NodeSet
        requires few { nodes ≤ 256 }
        requires passes { (n : ℕ) → n < nodes → F.pre passes n }
        ensures passed { (n : ℕ) → n < nodes → F.post passes n (has result n) }
        ensures there { (n : ℕ) → has result n ≡ true → n < nodes }
    {
        let mut set = NodeSet::none();
        for node in 0..nodes {
            let wanted = passes(node);
            set.put_if(node, wanted);
        }
        set
    }

    /// Takes a node out, if it is in the set.
    pub fn take_out(&mut self, node: u32)
        requires { node < 256 }
        ensures { (n : ℕ) → has self.new n ≡ (not (n == node) && has self.old n) }
    {
        self.words[node as usize / 64] &= !(1 << (node % 64));
    }

    /// Whether a node is in the set.
    pub fn has(&self, node: u32) -> bool
        requires { node < 256 }
        ensures { result ≡ has self.now node }
    {
        self.words[node as usize / 64] >> (node % 64) & 1 == 1
    }
}
