//! The options of PROC that speak of arcs and nodes.
ghost use Rattle.std.specs.Prelude.{◌≡◌, ◌⊎◌, None, Some, IfSome, MatchResult};
ghost use Rattle.nf_frac.specs.Amounts.{IsAmount};
ghost use Rattle.nf_roles.specs.Faults.{out_of_memory};
ghost use Rattle.nf_network.specs.Given.{IsEven};
ghost use Rattle.nf_network.specs.NodeData.{negated};
ghost use Rattle.nf_network.specs.OptionPass.{option_fault_now, option_given, options_fault_now, options_given};

use crate::nodes::Nodes;
use nf_cells::{Cell, Supply};
use nf_frac::Amount;
use nf_io::Text;
use nf_program::{Name, ProcOptions, Role, SetName};
use nf_roles::{DataFault, DataKind};
use std::alloc::Global;

/// Gives SUPPLY= to SOURCE= and DEMAND= to SINK=.
pub(crate) fn give_options(
    alloc: Global,
    nodes: &mut Nodes,
    options: &ProcOptions,
) -> Result<(), DataFault>
    requires even { IsEven nodes.old }
    requires demand { IfSome options.now.demand IsAmount }
    ensures { MatchResult result
        (λ _. (options_fault_now nodes.old options.now ≡ None) × (nodes.new ≡ options_given nodes.old options.now))
        (λ e. (e ≡ out_of_memory) ⊎ (options_fault_now nodes.old options.now ≡ Some e)) }
{
    match give_option(alloc, nodes, b"SOURCE", options.source, options.supply) {
        Ok(()) => {}
        Err(fault) => return Err(fault),
    }
    give_option(alloc, nodes, b"SINK", options.sink, negated(options.demand))
}

// A demand is a supply of the opposite sign.
fn negated(amount: Option<Amount>) -> Option<Amount>
    requires { IfSome amount IsAmount }
    ensures { result ≡ negated amount }
{
    match amount {
        Some(amount) => Some(Amount {
            thousandths: -amount.thousandths,
        }),
        None => None,
    }
}

// Gives an amount, where it is there, to the node that an option names.
fn give_option(
    alloc: Global,
    nodes: &mut Nodes,
    column: &[u8],
    named: Option<Name>,
    amount: Option<Amount>,
) -> Result<(), DataFault>
    requires { IsEven nodes.old }
    ensures { MatchResult result
        (λ _. (option_fault_now nodes.old column.now named amount ≡ None) × (nodes.new ≡ option_given nodes.old named amount))
        (λ e. (e ≡ out_of_memory) ⊎ (option_fault_now nodes.old column.now named amount ≡ Some e)) }
{
    let Some(name) = named else {
        return Ok(());
    };
    let Some(number) = nodes.find(name.bytes()) else {
        return Err(option_fault(alloc, column, DataKind::UnknownSource));
    };
    let Some(amount) = amount else {
        return Ok(());
    };
    let gift = Cell::Is(Supply::Amount(amount));
    match nodes.give(number, Role::Supply, gift) {
        Ok(()) => Ok(()),
        Err(_) => Err(option_fault(alloc, column, DataKind::TwoSupplies)),
    }
}

// A fault of an option, which stands in row 0 of PROC.
fn option_fault(alloc: Global, column: &[u8], kind: DataKind) -> DataFault
    ensures { (result ≡ out_of_memory) ⊎ (result ≡ record { set = SetName.Proc; row = 0; column = column.now; kind = kind }) }
{
    match Text::from_slice(alloc, column) {
        Ok(column) => DataFault {
            set: SetName::Proc,
            row: 0,
            column,
            kind,
        },
        Err(_) => DataFault::no_memory(alloc),
    }
}
