//! The last order of a session.

ghost use Rattle.std.specs.Prelude.{◌≡◌, IfOk, option_copied};
ghost use Rattle.example_cart.specs.Order as spec;
ghost use Rattle.example_cart.specs.Order.{kept_order, order_in};

use crate::cart::Cart;
use crate::kept::read_cart;
use std::alloc::{AllocError, Global};

/// The last order of a session.
#[derive(Drop)]
pub struct Order {
    /// How many orders there were, this one with them; 0 where there was none.
    pub number: u16,
    /// What was ordered.
    pub cart: Cart,
}

/// A form of this number orders what is in a cart: it is the form of the next order, and there is something in the cart. The last
/// number of 16 bits never orders.
pub fn is_ordered(order: &Order, cart: &Cart, form: u16) -> bool
    ensures { result ≡ spec.is_ordered order.now cart.now form }
{
    order.number == form && form < u16::MAX && !cart.is_empty()
}

/// The bytes of an order: the two of its number, and those of its cart.
pub fn kept_order(alloc: Global, order: &Order) -> Result<Vec<u8>, AllocError>
    ensures { IfOk result (λ bytes. bytes.items ≡ kept_order order.now) }
{
    let mut bytes = Vec::new(alloc);
    bytes.extend_from_slice(&[(order.number / 256) as u8, (order.number % 256) as u8])?;
    bytes.extend_from_slice(order.cart.as_slice())?;
    Ok(bytes)
}

/// The order of some bytes; none where there are none, or they are none of an order.
pub fn read_order(alloc: Global, bytes: Option<&[u8]>) -> Result<Order, AllocError>
    ensures { IfOk result (λ order. order ≡ order_in (option_copied bytes.entry)) }
{
    match bytes {
        Some([high, low, rest @ ..]) => Ok(Order {
            number: u16::from(*high) * 256 + u16::from(*low),
            cart: read_cart(alloc, Some(rest))?,
        }),
        _ => Ok(Order {
            number: 0,
            cart: Cart::new(alloc)?,
        }),
    }
}
