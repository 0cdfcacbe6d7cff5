//! The links of one timer.
ghost use Rattle.std.specs.Prelude.{◌≡◌};
ghost use Rattle.timer_tree.specs.Nodes.{near, far, with_links, blank, other_side, child_side, is_leaf, is_high_leaf};

/// The number of no node: no room reaches so far.
pub(crate) const NONE: u32 = u32::MAX;

/// A side of a node.
#[derive(Clone, Copy)]
pub(crate) enum Side {
    Left,
    Right,
}

/// A timer's own link in the tree. Timers on the left are due earlier. A rank is one or two more than those of both subtrees, and 1 at a
/// leaf; it is 0 where the timer isn't in the tree.
#[derive(Clone, Copy)]
pub(crate) struct Node {
    pub(crate) expires: u64,
    pub(crate) left: u32,
    pub(crate) right: u32,
    pub(crate) parent: u32,
    pub(crate) rank: u32,
}

impl Side {
    /// The other side.
    pub(crate) fn other(self) -> Side
        ensures { result ≡ other_side self }
    {
        match self {
            Side::Left => Side::Right,
            Side::Right => Side::Left,
        }
    }
}

impl Node {
    /// The side of one of its subtrees.
    pub(crate) fn side_of(self, child: u32) -> Side
        ensures { result ≡ child_side self child }
    {
        if self.left == child {
            Side::Left
        } else {
            Side::Right
        }
    }

    /// Whether nothing is below it.
    pub(crate) fn is_leaf(self) -> bool
        ensures { result ≡ is_leaf self }
    {
        self.left == NONE && self.right == NONE
    }

    /// Whether it is a leaf whose rank is too high.
    pub(crate) fn is_high_leaf(self) -> bool
        ensures { result ≡ is_high_leaf self }
    {
        self.rank == 2 && self.left == NONE && self.right == NONE
    }

    /// The link of a timer that isn't in the tree.
    pub(crate) fn blank() -> Node
        ensures { result ≡ blank }
    {
        Node {
            expires: 0,
            left: NONE,
            right: NONE,
            parent: NONE,
            rank: 0,
        }
    }

    /// The node below on this side.
    pub(crate) fn near(self, side: Side) -> u32
        ensures { result ≡ near side self }
    {
        match side {
            Side::Left => self.left,
            Side::Right => self.right,
        }
    }

    /// The node below on the other side.
    pub(crate) fn far(self, side: Side) -> u32
        ensures { result ≡ far side self }
    {
        match side {
            Side::Left => self.right,
            Side::Right => self.left,
        }
    }

    /// The node with the nodes `near` below it on this side, `far` on the other.
    pub(crate) fn with_links(self, side: Side, near: u32, far: u32, parent: u32, rank: u32) -> Node
        ensures { result ≡ with_links side self.expires near far parent rank }
    {
        let expires = self.expires;
        match side {
            Side::Left => Node {
                expires,
                left: near,
                right: far,
                parent,
                rank,
            },
            Side::Right => Node {
                expires,
                left: far,
                right: near,
                parent,
                rank,
            },
        }
    }
}
