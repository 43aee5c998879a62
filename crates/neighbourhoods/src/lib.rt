// The order of critical links between tasks: each by the backward walk, and whether all are in order.
#![tactic(auto)]

use into::predecessors;
use model::{Description, Link};
use walk::walk_back;

mod into;
mod walk;

ghost use Rattle.std.specs.Prelude.{◌≡◌, false, ℕ, ◌≤◌, ◌<◌, get_or};
ghost use Rattle.model.specs.Graph.{link_at};
ghost use Rattle.theory.proofs.WellFormed.{WellFormed};
ghost use Rattle.neighbourhoods.specs.Orders.{between_tasks, order_by, OrdersOf, order_held, orders_held};

// Whether a link is critical and between tasks.
fn between_tasks(link: Link) -> bool
    ensures { result ≡ between_tasks link }
{
    link.critical == 1 && link.from < 33
}

// Whether a critical link between tasks is in order; false for any other link.
fn order_by(link: Link, into: &[u64; 32]) -> bool
    requires { 1 ≤ link.from }
    ensures { result ≡ order_by into.now link }
{
    let from = usize::from(link.from);
    let to = usize::from(link.to);
    between_tasks(link) && walk_back(into, from, to).failed.is_none()
}

// Which links between tasks are in order, from the links into each task.
fn orders_by(d: Description, into: &[u64; 32]) -> [bool; 256]
    requires { WellFormed d }
    ensures { (l : ℕ) → l < d.link_count → get_or result l false ≡ order_by into.now (link_at d l) }
{
    let mut orders = [false; 256];
    for (l, link) in d.links[..d.link_count].iter().enumerate() {
        orders[l] = order_by(*link, into);
    }
    orders
}

// Which links between tasks are in order.
pub fn orders_of(d: Description) -> [bool; 256]
    requires { WellFormed d }
    ensures { OrdersOf d result }
{
    orders_by(d, &predecessors(d))
}

// Whether a link's order, where it is asked for one, is held.
fn order_held(link: Link, order: bool) -> bool
    ensures { result ≡ order_held link order }
{
    !between_tasks(link) || order
}

// Whether every critical link between tasks is in order.
pub fn orders_held(d: Description, orders: &[bool; 256]) -> bool
    requires { WellFormed d × OrdersOf d orders.now }
    ensures { result ≡ orders_held d }
{
    (0..d.link_count).all(|l| order_held(d.links[l], orders[l]))
}
