//! What the nodes have too much or too little, and which nodes have excess arcs.
ghost use Rattle.std.specs.Prelude.{◌≡◌, ◌≤◌, ◌+◌, ◌*◌, ◌^◌, ℕ, length, take, unsigned_abs};
ghost use Rattle.std.specs.List.{list_any};
ghost use Rattle.std.specs.Str.{bytes_eq};
ghost use Rattle.nf_network.specs.Balanced.{IsWithin, with_value};
ghost use Rattle.nf_network.specs.Excess.{balance_of, gets, has_excess, is_met, is_open_demand, is_open_supply, sends, thousandths_of};
ghost use Rattle.nf_network.specs.Faults.{excess, most_nodes};
ghost use Rattle.nf_network.specs.Given.{IsEven};

use crate::nodes::Nodes;
use nf_cells::Supply;

/// The name of the node that takes and gives what is too much or too little.
pub fn excess_name() -> &'static [u8]
    ensures { result.now ≡ excess }
{
    b"_EXCESS_"
}

/// Whether a name is `_EXCESS_`, which the data must not use.
pub fn is_excess(name: &[u8]) -> bool
    ensures { result ≡ bytes_eq name.now excess }
{
    name == excess_name()
}

/// The total of the nodes' values in thousandths, whether a supply or a demand is open, and whether THRUNET is given.
#[derive(Clone, Copy, Debug)]
pub(crate) struct Balance {
    pub(crate) total: i128,
    pub(crate) open_supply: bool,
    pub(crate) open_demand: bool,
    pub(crate) thrunet: bool,
}

impl Balance {
    /// The balance of the nodes.
    pub(crate) fn of(nodes: &Nodes, thrunet: bool) -> Balance
        requires even { IsEven nodes.now }
        requires few { length nodes.now.names ≤ most_nodes }
        ensures balance { result ≡ balance_of thrunet nodes.now.given }
        ensures within { IsWithin most_nodes result.total }
    {
        let mut balance = Balance {
            total: 0,
            open_supply: false,
            open_demand: false,
            thrunet,
        };
        for i in 0..nodes.len() {
            balance = balance.with(nodes.value(i));
        }
        balance
    }

    // The balance with one more value.
    fn with(self, value: Option<Supply>) -> Balance
        requires within { IsWithin most_nodes self.total }
        ensures balance { result ≡ with_value self value }
        ensures within { unsigned_abs result.total ≤ unsigned_abs self.total + 2 ^ 63 }
    {
        Balance {
            total: self.total + i128::from(thousandths(value)),
            open_supply: self.open_supply || is_open_supply(value),
            open_demand: self.open_demand || is_open_demand(value),
            thrunet: self.thrunet,
        }
    }

    /// Whether a node of this value sends to `_EXCESS_`.
    pub(crate) fn sends(self, value: Option<Supply>) -> bool
        ensures { result ≡ sends self value }
    {
        if is_open_demand(value) {
            return true;
        }
        if self.total <= 0 || self.open_demand {
            return false;
        }
        if self.thrunet {
            thousandths(value) < 0
        } else {
            0 < thousandths(value)
        }
    }

    /// Whether a node of this value gets from `_EXCESS_`.
    pub(crate) fn gets(self, value: Option<Supply>) -> bool
        ensures { result ≡ gets self value }
    {
        if is_open_supply(value) {
            return true;
        }
        if 0 <= self.total || self.open_supply {
            return false;
        }
        if !self.thrunet {
            thousandths(value) < 0
        } else {
            0 < thousandths(value)
        }
    }

    /// Whether `_EXCESS_` is there.
    pub(crate) fn has_excess(self, nodes: &Nodes) -> bool
        requires { IsEven nodes.now }
        ensures { result ≡ has_excess self nodes.now.given }
    {
        self.is_met_any(nodes) || self.total != 0
    }

    // Whether an excess arc meets any node.
    fn is_met_any(self, nodes: &Nodes) -> bool
        requires { IsEven nodes.now }
        ensures { result ≡ list_any (is_met self) nodes.now.given }
    {
        for i in 0..nodes.len() {
            if self.is_met(nodes.value(i)) {
                return true;
            }
        }
        false
    }

    // Whether an excess arc meets a node of this value.
    fn is_met(self, value: Option<Supply>) -> bool
        ensures { result ≡ is_met self value }
    {
        self.sends(value) || self.gets(value)
    }
}

/// The thousandths of a node's value: 0 where it is given no amount.
pub(crate) fn thousandths(value: Option<Supply>) -> i64
    ensures { result ≡ thousandths_of value }
{
    match value {
        Some(Supply::Amount(amount)) => amount.thousandths,
        Some(Supply::OpenSupply) | Some(Supply::OpenDemand) | None => 0,
    }
}

fn is_open_supply(value: Option<Supply>) -> bool
    ensures { result ≡ is_open_supply value }
{
    match value {
        Some(Supply::OpenSupply) => true,
        Some(Supply::Amount(_)) | Some(Supply::OpenDemand) | None => false,
    }
}

fn is_open_demand(value: Option<Supply>) -> bool
    ensures { result ≡ is_open_demand value }
{
    match value {
        Some(Supply::OpenDemand) => true,
        Some(Supply::Amount(_)) | Some(Supply::OpenSupply) | None => false,
    }
}
