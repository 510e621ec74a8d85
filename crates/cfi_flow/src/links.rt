//! Links, and where control may go.

ghost use Rattle.std.specs.Prelude.{◌≡◌};
ghost use Rattle.cfi_flow.specs.Flow.{flipped};

/// A link from one number to another: nodes, slots of branches or code addresses.
#[derive(Clone, Copy, Debug, PartialEq, Eq)]
pub struct Link {
    /// Where it begins.
    pub from: u32,
    /// Where it leads.
    pub to: u32,
}

impl Link {
    /// The link from its end to its beginning.
    pub fn flipped(&self) -> Link
        ensures { result ≡ flipped self.now }
    {
        Link {
            from: self.to,
            to: self.from,
        }
    }
}

/// Where control may go: nodes are what may be entered, a function or all functions of one type.
#[derive(Debug, Drop)]
pub struct Flow {
    /// How many nodes there are. They are numbered from 0.
    pub nodes: u32,
    /// From a node to a node: what enters the one may, without a call, get to the other.
    pub arrows: Vec<Link>,
    /// From a node to an address: after a call that enters the node, control comes back there.
    pub sites: Vec<Link>,
    /// From a node to a slot: a branch that returns there.
    pub returns: Vec<Link>,
    /// From a node to a slot: a branch that goes through a pointer to what the node stands for.
    pub pointers: Vec<Link>,
    /// From a node to an address: one that such a pointer may lead to.
    pub entries: Vec<Link>,
    /// From a node to a node: pointers to what the second stands for may lead to all that those to the first may.
    pub widenings: Vec<Link>,
    /// From a slot to an address: a branch that may go to listed addresses.
    pub listed: Vec<Link>,
}
